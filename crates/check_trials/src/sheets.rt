// A book, marks and a slip; the ways to damage them; and what the check answers to them.
use list_book::line::Line;
use list_book::list::ListBook;
use slip_check::check::check;
use slips::fault::SlipFault;
use slips::slip::*;
use std::alloc::Global;
use std::process::Abort;
use std::test::Fail;

// The lines of a book, the marks, and what a slip says. Lines and records stand as tuples: written as structs,
// each would take a line of text for every field.
#[derive(Clone, Copy)]
pub struct Draft<'a> {
    // The lower and the higher piece, and the cost.
    pub lines: &'a [(usize, usize, u32)],
    pub marks: &'a [u8],
    pub kind: Kind,
    pub total: u32,
    // The mate, the price and the group.
    pub pieces: &'a [(u16, i64, u16)],
    // The price and the parent. The slip counts these groups, and blank records follow.
    pub groups: &'a [(i64, u16)],
}

// One field set to another value, or one table made shorter or longer by a record. Values and not closures: of
// `&|s: &mut Sheet| s.slip.total = 9` a table needs a `dyn` for each row, and a failed test could not print it.
#[derive(Clone, Copy, Debug)]
pub enum Edit {
    Kind(u8),
    Total(u32),
    Count(u16),
    Mark(usize, u8),
    // Of a piece.
    Mate(usize, u16),
    Price(usize, i64),
    Group(usize, u16),
    // Of a group, by its number from 1.
    Worth(usize, i64),
    Parent(usize, u16),
    FewerPieces,
    MorePieces,
    FewerGroups,
    MoreGroups,
}

#[derive(Drop)]
pub struct Sheet {
    book: ListBook,
    marks: Vec<u8>,
    slip: Slip,
}

impl Draft<'_> {
    // A sheet of so many pieces as there are marks.
    pub(crate) fn sheet(&self, heap: Global) -> Result<Sheet, Fail> {
        let lines = self
            .lines
            .iter()
            .map(|&(lower, higher, cost)| Line::new(lower, higher, cost));
        let pieces = self
            .pieces
            .iter()
            .map(|&(mate, price, group)| PieceRecord { mate, price, group });
        let groups = self
            .groups
            .iter()
            .map(|&(price, parent)| GroupRecord { price, parent });
        let mut book = ListBook::new(heap);
        book.load(self.marks.len(), lines.collect(heap)?)?;
        let mut slip = Slip {
            kind: self.kind.into(),
            total: self.total,
            count: u16::try_from(self.groups.len())?,
            pieces: pieces.collect(heap)?,
            groups: groups.collect(heap)?,
        };
        slip.groups.resize(GROUPS, BLANK_GROUP)?;
        let marks = Vec::from_slice(heap, self.marks)?;
        Ok(Sheet { book, marks, slip })
    }
}

// What stands at a place, which has to be there.
fn at<T>(items: &mut [T], place: usize) -> Result<&mut T, Fail> {
    items
        .get_mut(place)
        .ok_or_else(|| Fail::new(format_args!("nothing at place {place}")))
}

fn group_of(groups: &mut [GroupRecord], number: usize) -> Result<&mut GroupRecord, Fail> {
    let place = number
        .checked_sub(1)
        .ok_or_else(|| Fail::new("groups are numbered from 1"))?;
    at(groups, place)
}

impl Sheet {
    fn apply(&mut self, edit: Edit) -> Result<(), Fail> {
        let slip = &mut self.slip;
        match edit {
            Edit::Kind(kind) => slip.kind = kind,
            Edit::Total(total) => slip.total = total,
            Edit::Count(count) => slip.count = count,
            Edit::Mark(piece, mark) => *at(&mut self.marks, piece)? = mark,
            Edit::Mate(piece, mate) => at(&mut slip.pieces, piece)?.mate = mate,
            Edit::Price(piece, price) => at(&mut slip.pieces, piece)?.price = price,
            Edit::Group(piece, group) => at(&mut slip.pieces, piece)?.group = group,
            Edit::Worth(group, price) => group_of(&mut slip.groups, group)?.price = price,
            Edit::Parent(group, parent) => group_of(&mut slip.groups, group)?.parent = parent,
            Edit::FewerPieces => drop(slip.pieces.pop()),
            Edit::MorePieces => slip.pieces.push(BLANK_PIECE)?,
            Edit::FewerGroups => drop(slip.groups.pop()),
            Edit::MoreGroups => slip.groups.push(BLANK_GROUP)?,
        }
        Ok(())
    }
}

// That the check of a sheet, after these edits, gives this answer.
pub(crate) fn answers(
    rt: &impl Abort,
    mut sheet: Sheet,
    edits: &[Edit],
    answer: Result<(), SlipFault>,
) -> Result<(), Fail> {
    for edit in edits {
        sheet.apply(*edit)?;
    }
    assert_eq!(rt;
        check(&sheet.book, &sheet.marks, &sheet.slip),
        answer,
        "after {edits:?}"
    );
    Ok(())
}
