// Laws of the definitions that the contracts of this crate cite. Nobody needs to run the functions, which take no memory: their contracts
// are proved.
ghost use Rattle.ged_line.specs.Laws.{OneLine, IsLineOrFaulty, OneCut, OneListOfLines, SpellingSpells, WrittenIsRead};

use crate::line::read::view_line;

/// A piece has one line at most.
pub fn one_line()
    ensures { OneLine }
{}

/// A piece has a line exactly where no fault stands at it.
pub fn line_or_fault(piece: &[u8])
    ensures { IsLineOrFaulty piece.now }
{
    let _ = view_line(piece);
}

/// A file is cut into pieces in one way.
pub fn one_cut()
    ensures { OneCut }
{}

/// A file spells one list of lines at most.
pub fn one_reading()
    ensures { OneListOfLines }
{}

/// The canonical spelling of a line spells it.
pub fn spelling_spells()
    ensures { SpellingSpells }
{}

/// What is written of lines spells these lines, and so it is read again.
pub fn written_is_read()
    ensures { WrittenIsRead }
{}
