// Numbers in bytes, the lowest byte first.
ghost use Rattle.std.specs.Prelude.{◌≡◌, ◌≤◌, ◌+◌, ◌++◌, length, drop, vec_len, vec_capacity};
ghost use Rattle.byteorder.specs.Endian.{little_number};
ghost use Rattle.pfx_record.specs.Begins.{Begins};
ghost use Rattle.pfx_record.specs.Numbers.{number_bytes};

use byteorder::{ByteOrder, LittleEndian};

/// Puts a number of 16 bits behind the others, as 2 bytes. There is room for them.
#[tactic(auto, unfolding(crate::specs::Numbers::number_bytes))]
pub fn push_u16(out: &mut Vec<u8>, n: u16)
    requires { vec_len out.old + 2 ≤ vec_capacity out.old }
    ensures items { out.new.items ≡ out.old.items ++ number_bytes 2 n }
    ensures len { vec_len out.new ≡ vec_len out.old + 2 }
    ensures room { vec_capacity out.old ≤ vec_capacity out.new }
{
    let mut bytes = [0; 2];
    LittleEndian::write_u16(&mut bytes, n);
    let _ = out.extend_from_slice(&bytes);
}

/// Puts a number of 32 bits behind the others, as 4 bytes. There is room for them.
#[tactic(auto, unfolding(crate::specs::Numbers::number_bytes))]
pub fn push_u32(out: &mut Vec<u8>, n: u32)
    requires { vec_len out.old + 4 ≤ vec_capacity out.old }
    ensures items { out.new.items ≡ out.old.items ++ number_bytes 4 n }
    ensures len { vec_len out.new ≡ vec_len out.old + 4 }
    ensures room { vec_capacity out.old ≤ vec_capacity out.new }
{
    let mut bytes = [0; 4];
    LittleEndian::write_u32(&mut bytes, n);
    let _ = out.extend_from_slice(&bytes);
}

/// Puts a number of 64 bits behind the others, as 8 bytes. There is room for them.
#[tactic(auto, unfolding(crate::specs::Numbers::number_bytes))]
pub fn push_u64(out: &mut Vec<u8>, n: u64)
    requires { vec_len out.old + 8 ≤ vec_capacity out.old }
    ensures items { out.new.items ≡ out.old.items ++ number_bytes 8 n }
    ensures len { vec_len out.new ≡ vec_len out.old + 8 }
    ensures room { vec_capacity out.old ≤ vec_capacity out.new }
{
    let mut bytes = [0; 8];
    LittleEndian::write_u64(&mut bytes, n);
    let _ = out.extend_from_slice(&bytes);
}

/// The number of 16 bits whose 2 bytes stand at this place. They end before the bytes do.
pub fn u16_at(bytes: &[u8], at: usize) -> u16
    requires { at + 2 ≤ length bytes.now }
    ensures begins { Begins (drop at bytes.now) (number_bytes 2 result) }
    ensures value { result ≡ little_number 2 (drop at bytes.now) }
{
    LittleEndian::read_u16(&bytes[at..])
}

/// The number of 32 bits whose 4 bytes stand at this place. They end before the bytes do.
pub fn u32_at(bytes: &[u8], at: usize) -> u32
    requires { at + 4 ≤ length bytes.now }
    ensures begins { Begins (drop at bytes.now) (number_bytes 4 result) }
    ensures value { result ≡ little_number 4 (drop at bytes.now) }
{
    LittleEndian::read_u32(&bytes[at..])
}

/// The number of 64 bits whose 8 bytes stand at this place. They end before the bytes do.
pub fn u64_at(bytes: &[u8], at: usize) -> u64
    requires { at + 8 ≤ length bytes.now }
    ensures begins { Begins (drop at bytes.now) (number_bytes 8 result) }
    ensures value { result ≡ little_number 8 (drop at bytes.now) }
{
    LittleEndian::read_u64(&bytes[at..])
}
