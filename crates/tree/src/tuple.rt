// One tuple of an attribute field, at an offset: code, index, parent of 2 bytes each, instruction of 1 byte, value up to 1F.
ghost use Rattle.std.specs.Prelude.{◌≡◌, not, ◌+◌, ◌≤◌, length, eqb};
ghost use Rattle.base.specs.Choice.{either};
ghost use Rattle.tree.specs.Source.{two, past, closed};

// Code, index or parent.
pub fn number(b: &[u8], at: usize) -> usize
    requires { at + 2 ≤ length b.now }
    ensures { result ≡ two b.now at }
{
    fields::le16(b, at) as usize
}

// The offset behind the tuple.
pub fn behind(b: &[u8], at: usize) -> usize
    requires { past b.now at ≤ length b.now }
    ensures { result ≡ past b.now at }
{
    fields::text_end(b, at + 7) + 1
}

// It must not stand there: its parent takes no child, or, where the whole rule is asked for, its index is not the one that is due.
pub fn breaks(b: &[u8], at: usize, due: usize, shut: bool, whole: bool) -> bool
    requires { at + 4 ≤ length b.now }
    ensures { result ≡ either shut (not (either (not whole) (eqb (two b.now (at + 2)) due))) }
{
    shut || whole && number(b, at + 2) != due
}

// It takes no child: it has a value, or, where only parents are asked for, it is a delete.
pub fn is_closed(b: &[u8], at: usize, whole: bool) -> bool
    requires { at + 8 ≤ length b.now }
    ensures { result ≡ closed b.now whole at }
{
    if whole {
        b[at + 7] != 31
    } else {
        b[at + 6] == 2
    }
}
