// The digits that a line begins with, taken at once.
ghost use Rattle.std.specs.Prelude.{◌≡◌};
ghost use Rattle.line.specs.Digits.{digit_values};

use crate::Ahead;
use line::Partial;

// What each byte is as a hex digit, and 16 for what is none. It's made once and lent.
#[derive(Drop)]
pub(crate) struct DigitTable {
    values: [u8; 256],
    ghost whole: { values ≡ digit_values },
}

impl DigitTable {
    ghost use Rattle.std.specs.Prelude.{◌<◌, length};
    ghost use Rattle.line.specs.Digits.{value_of};
    ghost use Rattle.session.specs.Ahead.{six_of, ahead_of};

    pub(crate) fn new() -> Self {
        DigitTable {
            values: frame::digit_values(),
        }
    }

    fn value(&self, b: u8) -> u8
        ensures { result ≡ value_of b }
    {
        self.values[usize::from(b)]
    }

    // The value of characters, if each is a hex digit.
    fn value_of(&self, digits: &[u8]) -> Option<u32>
        ensures { result ≡ six_of digits.now }
    {
        let mut value: u32 = 0;
        let mut seen: u8 = 0;
        for b in digits {
            let d = self.value(*b);
            value = value % 0x100000 * 16 + u32::from(d);
            seen |= d;
        }
        (seen < 16).then_some(value)
    }

    // A line's six digits at once, where they stand whole at its beginning and a byte stands behind them.
    pub(crate) fn look_ahead(&self, p: Partial, input: &[u8], at: usize) -> Ahead
        requires { at < length input.now }
        ensures { result ≡ ahead_of p input.now at }
    {
        if frame::is_blank(p) & (input.len() - at > 6) {
            if let Some(value) = self.value_of(&input[at..at + 6]) {
                return Ahead {
                    partial: Partial {
                        value,
                        digits: 6,
                        fault: false,
                    },
                    at: at + 6,
                };
            }
        }
        Ahead { partial: p, at }
    }
}
