// The numbers of a record: four bytes each, the high byte first. In proofs/ also how long records are.
#![tactic(auto)]

ghost use Rattle.std.specs.Prelude.{◌≡◌, ◌+◌, ◌≤◌, length};
ghost use Rattle.channel.specs.Record.{number_at};

// The number in four bytes from a place on, the high byte first.
pub fn number_at(bytes: &[u8], at: usize) -> u64
    requires { at + 4 ≤ length bytes.now }
    ensures { (result ≡ number_at bytes.now at) × (result ≤ 4294967295) }
{
    u32::from_be_bytes([bytes[at], bytes[at + 1], bytes[at + 2], bytes[at + 3]]) as u64
}
