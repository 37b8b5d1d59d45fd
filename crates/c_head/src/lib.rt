// The C interface's function that writes back what stands before a message's body: it answers the papers' number, and a refusal leaves all that
// was lent as it was.
#![tactic(auto)]

ghost use Rattle.c_head.specs.Heads.{WritesHeadC};

// All octets of a message before its body, gaps and reserved octets zero: 0, 42, 12 to 21, 75, 70 to 74, or 76. `out` gets them from its start
// on, and `count` their number.
pub fn haulspar_head(octets: &[u8], out: &mut [u8], count: &mut u64) -> u32
    ensures { WritesHeadC octets.now out.old count.old result out.new count.new }
{
    match header_head::head(octets, out) {
        Ok(n) => {
            *count = n as u64;
            0
        }
        Err(refusal) => refusal.number(),
    }
}
