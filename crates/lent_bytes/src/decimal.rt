// Numbers in decimal into lent bytes.
ghost use Rattle.std.specs.Prelude.{◌+◌, ◌≤◌, length};
ghost use Rattle.rules.specs.Bytes.{decimal};
ghost use Rattle.lent_bytes.specs.Lent.{Put};

// The digits of a tenth, then the last one. By hand: `write!` into a `&mut [u8]` promises nothing of its bytes, and `itoa` is a crate that nothing here rests on.
pub fn digits(n: u64, room: &mut [u8], at: usize) -> usize
    requires { at + length (decimal n) ≤ length room.old }
    ensures { Put room.old at (decimal n) result room.new }
{
    let last = b'0' + (n % 10) as u8;
    if n < 10 {
        room[at] = last;
        return at + 1;
    }
    let end = digits(n / 10, room, at);
    room[end] = last;
    end + 1
}
