// One line's answer: about a header, or about a type, a value or a profile.
#![tactic(auto)]

ghost use Rattle.line_replies.specs.Replies.{LineReplied};

// Writes the answer of a line's characters, and its LF, from `at` on, and leaves its items in `table`; nothing where there is no room for the
// longest answer.
pub fn reply_line(line: &[u8], out: &mut [u8], table: &mut [u64], at: usize) -> Option<usize>
    ensures { LineReplied line.now out.old table.old at result out.new table.new }
{
    if ask_headers::asks(line) {
        if ask_room::has_room(table.len(), out.len(), at) {
            return ask_headers::answer(line, out, at);
        }
        return None;
    }
    ask_answers::answer_line(line, out, table, at)
}
