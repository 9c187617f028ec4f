// The numbers of one and two bytes.
ghost use Rattle.std.specs.Prelude.{◌≡◌, ◌+◌, ◌≤◌, ◌<◌, length};
ghost use Rattle.scan.specs.Sheet.{byte_at, number_at, raised};

pub fn byte_at(sheet: &[u8], at: usize) -> usize
    requires { at < length sheet.now }
    ensures { result ≡ byte_at sheet.now at }
{
    sheet[at] as usize
}

// High byte first.
pub fn number_at(sheet: &[u8], at: usize) -> u16
    requires { at + 2 ≤ length sheet.now }
    ensures { result ≡ number_at sheet.now at }
{
    u16::from_be_bytes([sheet[at], sheet[at + 1]])
}

// The signed number that the two bytes of u stand for, raised by 32,768.
pub fn raised(u: u16) -> u32
    ensures { result ≡ raised u }
{
    (u as u32 + 32768) % 65536
}
