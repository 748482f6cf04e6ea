// Text that is put into a buffer after what is there: bytes as they are, numbers in decimal, bytes in hexadecimal.
ghost use Rattle.std.specs.Prelude.{◌≡◌, ◌++◌, ◌+◌, ◌*◌, ◌≤◌, ◌<◌, length};
ghost use Rattle.io.specs.Digits.{hex_digit_ascii};
ghost use Rattle.lists.specs.Lists.{over};
ghost use Rattle.print_spec.specs.Lines.{Put, decimal_text, hex_text};

// Bytes at a place of the text; the place after them.
pub fn put(bytes: &[u8], text: &mut [u8], at: usize) -> usize
    requires { at + length bytes.now ≤ length text.old }
    ensures { Put bytes.now at text.old result text.new }
{
    text[at..at + bytes.len()].copy_from_slice(bytes);
    at + bytes.len()
}

// A number after its name.
pub fn put_number(name: &[u8], number: u64, text: &mut [u8], at: usize) -> usize
    requires { at + length name.now + 20 ≤ length text.old }
    ensures put { Put (name.now ++ decimal_text number) at text.old result text.new }
    ensures few { result ≤ at + length name.now + 20 }
{
    let from = put(name, text, at);
    let mut digits = [0u8; 20];
    let k = io::decimal(number, &mut digits);
    put(&digits[..k], text, from)
}

// A hexadecimal digit as text.
fn digit(d: u8) -> u8
    requires { d < 16 }
    ensures { result ≡ hex_digit_ascii d }
{
    if d < 10 {
        return 48 + d;
    }
    87 + d
}

// The bytes as text: a space and two hexadecimal digits each.
pub fn put_hex(bytes: &[u8], text: &mut [u8])
    requires { 3 * length bytes.now ≤ length text.old }
    ensures { text.new ≡ over (hex_text bytes.now) text.old }
{
    'bytes: for (i, b) in bytes.iter().enumerate() {
        let at = 3 * i;
        text[at] = 32;
        text[at + 1] = digit(*b / 16);
        text[at + 2] = digit(*b % 16);
    }
}
