// The joined message: the octets held of it and a last fragment's body, with its header corrected.
#![tactic(auto)]

ghost use Rattle.std.specs.Prelude.{◌≡◌, ◌-◌, ◌≤◌, length, set};
ghost use Rattle.std.proofs.lemmas.List.Edits.{sets};
ghost use Rattle.cdr.specs.Number.{octets_of};
ghost use Rattle.frame.specs.Header.{flags_offset, size_offset, header_size, flags_at, order_at};
ghost use Rattle.join_message.specs.Message.{more_cleared};
ghost use Rattle.join_message.specs.Written.{Assembles};

use cdr::Size;

// Why a joined message is not written: it does not fit, or its first octets are no header.
#[derive(Clone, Copy)]
pub enum Unassembled {
    NoRoom,
    NoHeader,
}

// Writes the message of the octets that are held and a last fragment's body after the id from the start of `out`.
pub fn write_joined(held: &[u8], body: &[u8], out: &mut [u8]) -> Result<usize, Unassembled>
    ensures { Assembles held.now body.now out.old result out.new }
{
    let total = held.len() + body.len();
    if held.len() < frame::HEADER_SIZE {
        return Err(Unassembled::NoHeader);
    }
    if out.len() < total {
        return Err(Unassembled::NoRoom);
    }
    cdr_write::write_octets(out, 0, held);
    let end = cdr_write::write_octets(out, held.len(), body).ok_or(Unassembled::NoRoom)?;
    correct(out, end);
    Ok(end)
}

// Flags with the more flag cleared.
fn more_cleared(flags: u8) -> u8
    ensures { result ≡ more_cleared flags }
{
    if frame::more_flag(flags) {
        flags - 2
    } else {
        flags
    }
}

// Clears the more flag of the message at the start of `out`, and corrects its size to that of `total` octets.
fn correct(out: &mut [u8], total: usize)
    requires { (header_size ≤ total) × (total ≤ length out.old) }
    ensures { out.new ≡ sets (set out.old flags_offset (more_cleared (flags_at out.old)))
        size_offset (octets_of (order_at out.old) 4 (total - header_size)) }
{
    let flags = out[frame::FLAGS_OFFSET];
    out[frame::FLAGS_OFFSET] = more_cleared(flags);
    let size = (total - frame::HEADER_SIZE) as u64;
    cdr_write::write_number(
        out,
        frame::SIZE_OFFSET,
        Size::Four,
        frame::order_flag(flags),
        size,
    );
}
