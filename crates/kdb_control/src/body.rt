ghost use Rattle.std.specs.Prelude.{◌≡◌};
ghost use Rattle.kdb_format.specs.Answers.{Reads, ReadsAs};
ghost use Rattle.kdb_format.specs.Readings.{literal_at};
ghost use Rattle.kdb_control.specs.Bodies.{magic, body_at, body, IsBody};

use crate::choice::{Control, in_ranges, is_format};
use kdb_format::moments::read_point;
use kdb_format::placing::{put_bytes, put_u8, put_u16, put_u32};
use kdb_format::{Malformed, Reader};

// The text KDBP.
const MAGIC: [u8; 4] = [75, 68, 66, 80];

#[tactic(auto, unfolding(crate::specs::Bodies::magic))]
fn read_magic(reader: &mut Reader) -> Result<(), Malformed>
    ensures { ReadsAs (λ _. tt) result reader.new (literal_at magic reader.old) }
{
    reader.literal(&MAGIC)
}

// The body of a slot.
#[tactic(auto, unfolding(crate::specs::Bodies::body_at, crate::specs::Bodies::numbers_at, kdb_format::specs::Readings::checked))]
pub(crate) fn read_body(reader: &mut Reader) -> Result<Control, Malformed>
    ensures { Reads result reader.new (body_at reader.old) }
{
    read_magic(reader)?;
    let format = reader.u16()?;
    let turn = reader.u8()?;
    let image = reader.u8()?;
    let log = reader.u8()?;
    let stash = reader.u8()?;
    let size = reader.u32()?;
    let block = reader.u32()?;
    let base = read_point(reader)?;
    reader.zeros(33)?;
    if !(is_format(format) && in_ranges(turn, image, log, stash, size, block)) {
        return Err(Malformed);
    }
    Ok(Control {
        format,
        turn,
        image,
        log,
        stash,
        size,
        block,
        base,
    })
}

// The bytes of a body.
pub(crate) const BODY: usize = 63;

// The body that says so.
pub(crate) fn write_body(control: &Control) -> [u8; BODY]
    ensures bytes { result ≡ body control.now }
    ensures fits { IsBody control.now }
{
    let mut out = [0; BODY];
    put_bytes(&mut out, 0, &MAGIC);
    put_u16(&mut out, 4, control.format);
    put_u8(&mut out, 6, control.turn);
    put_u8(&mut out, 7, control.image);
    put_u8(&mut out, 8, control.log);
    put_u8(&mut out, 9, control.stash);
    put_u32(&mut out, 10, control.size);
    put_u32(&mut out, 14, control.block);
    let sno = control.base.sno;
    put_u32(&mut out, 18, sno);
    put_u32(&mut out, 22, control.base.time.secs());
    put_u32(&mut out, 26, control.base.time.usecs());
    out
}
