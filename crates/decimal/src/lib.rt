// Decimal numbers as bytes: how long they are, writing them into a lent part, and reading them from a word.
// Lengths: decimal_len, integer_len, signed_len. Writing: put_byte, put_bytes, put_decimal, put_integer, put_signed.
// Reading: read_numeral. Document 01, "Instance text" and "The listing program"; read specs/Decimal.antt and specs/Bytes.antt.
// A put writes from `at` on and answers the place just after what it wrote; the caller has made sure of the room.
// Kept as a run and a place: lent only a part of `out`, a put would leave open what the whole of `out` ends as.
#![tactic(auto)]

ghost use Rattle.std.specs.Prelude.{◌≡◌, [], ◌∷◌, ◌+◌, ◌-◌, ◌<◌, ◌≤◌, nat_abs, length};
ghost use Rattle.decimal.specs.Bytes.{overwrite};
ghost use Rattle.decimal.specs.Decimal.{decimal, digit_byte, integer, signed, sign_byte, is_digit, read_numeral};

// The most digits of a numeral.
pub const MAX_DIGITS: usize = 10;

// ---- Lengths, kept beside the puts: a refusal for room comes before a byte is written

// How many digits x has.
pub fn decimal_len(x: u64) -> usize
    ensures { result ≡ length (decimal x) }
{
    let mut rest = x;
    let mut n = 1;
    // Kept as a while: each turn divides, and how many there are is what is asked.
    while 10 <= rest {
        rest = rest / 10;
        n += 1;
    }
    n
}

// The sign of x as a byte: a minus if x is negative, else a plus.
pub fn sign_byte(x: i64) -> u8
    ensures { result ≡ sign_byte x }
{
    if x < 0 { b'-' } else { b'+' }
}

// How many bytes x takes with a minus if it is negative, and no plus.
pub fn integer_len(x: i64) -> usize
    ensures { result ≡ length (integer x) }
{
    let n = decimal_len(x.unsigned_abs());
    if x < 0 { 1 + n } else { n }
}

// How many bytes x takes with its sign, plus or minus.
pub fn signed_len(x: i64) -> usize
    ensures { result ≡ length (signed x) }
{
    1 + decimal_len(x.unsigned_abs())
}

// ---- Writing

// Writes the byte b.
pub fn put_byte(out: &mut [u8], at: usize, b: u8) -> usize
    requires { at + 1 ≤ length out.old }
    ensures left { out.new ≡ overwrite out.old at (b ∷ []) }
    ensures next { result ≡ at + 1 }
{
    out[at] = b;
    at + 1
}

// Writes the bytes.
pub fn put_bytes(out: &mut [u8], at: usize, bytes: &[u8]) -> usize
    requires { at + length bytes.now ≤ length out.old }
    ensures left { out.new ≡ overwrite out.old at bytes.now }
    ensures next { result ≡ at + length bytes.now }
{
    let end = at + bytes.len();
    out[at..end].copy_from_slice(bytes);
    end
}

// The byte of a digit.
fn digit_byte(d: u64) -> u8
    requires { d < 10 }
    ensures { result ≡ digit_byte d }
{
    b'0' + d as u8
}

// Writes x in decimal, without leading zeros: the last digit first, from the end that its length gives.
pub fn put_decimal(out: &mut [u8], at: usize, x: u64) -> usize
    requires { at + length (decimal x) ≤ length out.old }
    ensures left { out.new ≡ overwrite out.old at (decimal x) }
    ensures next { result ≡ at + length (decimal x) }
{
    let end = at + decimal_len(x);
    let mut rest = x;
    let mut i = end - 1;
    // Kept as a while: each turn divides what is left, and no library function gives the digits.
    while 10 <= rest {
        out[i] = digit_byte(rest % 10);
        rest = rest / 10;
        i -= 1;
    }
    out[i] = digit_byte(rest);
    end
}

// Writes x in decimal with a minus if it is negative, and no plus.
pub fn put_integer(out: &mut [u8], at: usize, x: i64) -> usize
    requires { at + length (integer x) ≤ length out.old }
    ensures left { out.new ≡ overwrite out.old at (integer x) }
    ensures next { result ≡ at + length (integer x) }
{
    let size = x.unsigned_abs();
    if x < 0 {
        let from = put_byte(out, at, b'-');
        return put_decimal(out, from, size);
    }
    put_decimal(out, at, size)
}

// Writes x in decimal with its sign, plus or minus.
pub fn put_signed(out: &mut [u8], at: usize, x: i64) -> usize
    requires { at + length (signed x) ≤ length out.old }
    ensures left { out.new ≡ overwrite out.old at (signed x) }
    ensures next { result ≡ at + length (signed x) }
{
    let from = put_byte(out, at, sign_byte(x));
    put_decimal(out, from, x.unsigned_abs())
}

// ---- Reading

// Whether b is one of the bytes 0 to 9.
pub fn is_digit(b: u8) -> bool
    ensures { result ≡ is_digit b }
{
    b.is_ascii_digit()
}

// The value of a digit byte.
fn digit_value(b: u8) -> u64
    requires { 48 ≤ b }
    ensures { result ≡ b - 48 }
{
    u64::from(b - b'0')
}

// Reads a word of 1 to 10 digits; leading zeros are allowed.
// Rules out: taking an empty word, a sign, or an eleventh digit; a value for a word that is not a numeral.
pub fn read_numeral(word: &[u8]) -> Option<u64>
    ensures { result ≡ read_numeral word.now }
{
    if word.is_empty() {
        return None;
    }
    if MAX_DIGITS < word.len() {
        return None;
    }
    let mut value: u64 = 0;
    for &b in word {
        if !is_digit(b) {
            return None;
        }
        value = value * 10 + digit_value(b);
    }
    Some(value)
}
