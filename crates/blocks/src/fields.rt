// Numbers in a block, big-endian (document 01, 'Front file, form 1').
ghost use Rattle.std.specs.Prelude.{◌≡◌, ◌+◌, ◌^◌, ◌<◌, ◌≤◌, length};
ghost use Rattle.blocks.specs.Fields.{number_at, signed_of, bits_of, put};

// The number of N bytes at a place.
pub fn get<const N: usize>(block: &[u8], at: usize) -> u64
    requires width { N ≤ 8 }
    requires at_in_bounds { at + N ≤ length block.now }
    ensures value { result ≡ number_at N block.now at }
    ensures small { result < 256 ^ N }
{
    let mut number = 0;
    for byte in &block[at..at + N] {
        number = number * 256 + u64::from(*byte);
    }
    number
}

// The signed number of 64 bits at a place.
pub fn get_signed(block: &[u8], at: usize) -> i64
    requires { at + 8 ≤ length block.now }
    ensures { result ≡ signed_of (number_at 8 block.now at) }
{
    get::<8>(block, at).cast_signed()
}

// Stores a number of N bytes.
pub fn set<const N: usize>(block: &mut [u8], at: usize, number: u64)
    requires width { N ≤ 8 }
    requires at_in_bounds { at + N ≤ length block.old }
    requires number_bound { number < 256 ^ N }
    ensures { block.new ≡ put N block.old at number }
{
    block[at..at + N].copy_from_slice(&number.to_be_bytes()[8 - N..]);
}

// Stores a signed number of 64 bits.
pub fn set_signed(block: &mut [u8], at: usize, number: i64)
    requires { at + 8 ≤ length block.old }
    ensures { block.new ≡ put 8 block.old at (bits_of number) }
{
    set::<8>(block, at, number.cast_unsigned());
}
