// A line of the vectors.
ghost use Rattle.std.specs.Prelude.{◌<◌};

// A line's bytes, the newline among them.
pub const LENGTH: usize = 39;

// An operation and four words, in lower-case hexadecimal at fixed places; what stands between them is not looked at.
#[derive(Clone, Copy)]
pub struct Line {
    pub op: u8,
    pub words: [u32; 4],
}

impl Line {
    // Of any bytes: a damaged line gives a wrong number.
    pub fn new(bytes: [u8; LENGTH]) -> Line {
        Line {
            op: digit(bytes[0]) << 4 | digit(bytes[1]),
            words: [
                number(&bytes[3..11]),
                number(&bytes[12..20]),
                number(&bytes[21..29]),
                number(&bytes[30..38]),
            ],
        }
    }
}

fn number(digits: &[u8]) -> u32 {
    digits
        .iter()
        .fold(0, |number, byte| number << 4 | u32::from(digit(*byte)))
}

// What is no digit counts as 0. By hand, since `to_digit` and `from_str_radix` take capitals, and the latter a sign.
fn digit(byte: u8) -> u8
    ensures { result < 16 }
{
    match byte {
        b'0'..=b'9' => byte - b'0',
        b'a'..=b'f' => byte - b'a' + 10,
        _ => 0,
    }
}
