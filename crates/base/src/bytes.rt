ghost use Rattle.std.specs.Prelude.{◌≡◌};
ghost use Rattle.base.specs.Bytes.{is_digit, is_symbol_byte, is_white};

/// Whether the byte is white space: tab, line feed, carriage return or blank.
pub fn is_white(byte: u8) -> bool
    ensures { result ≡ is_white byte }
{
    matches!(byte, b'\t' | b'\n' | b'\r' | b' ')
}

/// Whether the byte is a decimal digit.
pub fn is_digit(byte: u8) -> bool
    ensures { result ≡ is_digit byte }
{
    byte.is_ascii_digit()
}

/// Whether a symbol may have the byte: a letter, a digit, or one of `~!@$%^&*_-+=<>.?/`.
pub fn is_symbol_byte(byte: u8) -> bool
    ensures { result ≡ is_symbol_byte byte }
{
    matches!(
        byte,
        b'a'..=b'z'
            | b'A'..=b'Z'
            | b'0'..=b'9'
            | b'~'
            | b'!'
            | b'@'
            | b'$'
            | b'%'
            | b'^'
            | b'&'
            | b'*'
            | b'_'
            | b'-'
            | b'+'
            | b'='
            | b'<'
            | b'>'
            | b'.'
            | b'?'
            | b'/'
    )
}

#[cfg(test)]
mod tests {
    use super::*;

    #[test]
    fn each_byte_is_of_the_kinds_that_the_standard_gives(rt: HostRuntime) {
        let symbols =
            b"abcdefghijklmnopqrstuvwxyzABCDEFGHIJKLMNOPQRSTUVWXYZ0123456789~!@$%^&*_-+=<>.?/";
        let digits = b"0123456789";
        let whites = [9, 10, 13, 32];
        for byte in 0..=255u8 {
            assert_eq!(rt;
                is_symbol_byte(byte),
                symbols.contains(&byte),
                "{byte} in a symbol"
            );
            assert_eq!(rt; is_digit(byte), digits.contains(&byte), "{byte} as a digit");
            assert_eq!(rt;
                is_white(byte),
                whites.contains(&byte),
                "{byte} as white space"
            );
        }
    }
}
