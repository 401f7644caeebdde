// A plan as text: for each block its parent, its ranks with a star at the active separators, and the numbers of its sections.
use planner::row::Row;
use std::fmt;

#[derive(Drop)]
struct ShownRow<'a>(&'a Row);

impl fmt::Display for ShownRow<'_> {
    fn fmt<W: fmt::Write>(&self, f: &mut fmt::Formatter<W>) -> fmt::Result {
        let row = self.0;
        let parent = row.parent;
        write!(f, " {parent}[")?;
        // The mask is gone through beside the ranks: a list of its bits would take memory.
        let mut marks = row.mask;
        for (i, rank) in row.ranks().iter().enumerate() {
            let comma = if i > 0 { "," } else { "" };
            let star = if marks % 2 == 1 { "*" } else { "" };
            write!(f, "{comma}{rank}{star}")?;
            marks /= 2;
        }
        write!(f, "]{{")?;
        for (i, section) in row.used_sections().iter().enumerate() {
            let comma = if i > 0 { "," } else { "" };
            let block = section.block;
            write!(f, "{comma}{block}")?;
        }
        write!(f, "}}")
    }
}

// The rows of a plan.
#[derive(Drop)]
pub(crate) struct ShownPlan<'a>(pub(crate) &'a [Row]);

impl fmt::Display for ShownPlan<'_> {
    fn fmt<W: fmt::Write>(&self, f: &mut fmt::Formatter<W>) -> fmt::Result {
        for row in self.0 {
            let shown = ShownRow(row);
            write!(f, "{shown}")?;
        }
        Ok(())
    }
}
