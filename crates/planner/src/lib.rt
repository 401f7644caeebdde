// The planner: from the drawing priorities and the measures of some entries in key order, the blocks of their tree, the measure of each
// section, and a count of visits.
#![tactic(auto)]

ghost use Rattle.std.specs.Prelude.{◌≡◌, true, map, length};
ghost use Rattle.planner.specs.Plan.{plannable, plan_answer, plan_rows, plan_work, MaskTellsSections, PlanIsTree};

mod bounds;
mod drawing;
mod earliest;
mod entries;
pub mod entry;
pub mod extent;
mod gather;
mod plan;
mod ranked;
pub mod row;
mod settings;
mod work;

use drawing::Drawing;
use entry::Entry;
use extent::Extent;
use plan::Planning;
use ranked::{Entries, Lists, Ranked};
use row::Row;
use settings::{CAPACITY, Settings};
use work::count_up;

// Plans the tree of some entries, which come in key order: a row for each block, in preorder, from the front of the table on. The
// answer is how many blocks there are, and how many visits to ranks were counted; or none, with nothing touched, if that cannot be
// planned. The work area may hold anything; a place for each entry is 0 afterwards. α and ρ are any two numbers, and one `None` stands
// for every refusal: the calls of a chapter refuse settings and work table by number and place.
pub fn plan_tree<E: Entry>(
    entries: &[E],
    alpha: usize,
    rho: usize,
    work: &mut [u16],
    table: &mut [Row],
) -> Option<Extent>
    ensures answer { result ≡ plan_answer (map E.priority entries.now) alpha rho (length work.old) (length table.old) }
    ensures rows { table.new ≡ plan_rows (map E.priority entries.now) (map E.measure entries.now) alpha rho (length work.old) table.old }
    ensures cleared { work.new ≡ plan_work (map E.priority entries.now) alpha rho work.old (length table.old) }
    ensures fan { plannable (length entries.now) alpha rho (length work.old) (length table.old) ≡ true → MaskTellsSections (map E.priority entries.now) alpha rho }
{
    plan_ranked(Entries { entries }, alpha, rho, work, table)
}

// The same for priorities and measures in two lists as they lie, of any lengths: a rank past the end of the measures measures 0, and
// what is longer than the priorities is not read.
pub fn plan_lists(
    priorities: &[u16],
    measures: &[u16],
    alpha: usize,
    rho: usize,
    work: &mut [u16],
    table: &mut [Row],
) -> Option<Extent>
    ensures answer { result ≡ plan_answer priorities.now alpha rho (length work.old) (length table.old) }
    ensures rows { table.new ≡ plan_rows priorities.now measures.now alpha rho (length work.old) table.old }
    ensures cleared { work.new ≡ plan_work priorities.now alpha rho work.old (length table.old) }
    ensures fan { plannable (length priorities.now) alpha rho (length work.old) (length table.old) ≡ true → MaskTellsSections priorities.now alpha rho }
{
    let lists = Lists {
        priorities,
        measures,
    };
    plan_ranked(lists, alpha, rho, work, table)
}

// Plans what tells priorities and measures.
fn plan_ranked<S: Ranked>(
    source: S,
    alpha: usize,
    rho: usize,
    work: &mut [u16],
    table: &mut [Row],
) -> Option<Extent>
    ensures answer { result ≡ plan_answer (S.priorities source) alpha rho (length work.old) (length table.old) }
    ensures rows { table.new ≡ plan_rows (S.priorities source) (S.measures source) alpha rho (length work.old) table.old }
    ensures cleared { work.new ≡ plan_work (S.priorities source) alpha rho work.old (length table.old) }
    ensures fan { plannable (length (S.priorities source)) alpha rho (length work.old) (length table.old) ≡ true → MaskTellsSections (S.priorities source) alpha rho }
{
    let settings = Settings::new(alpha, rho)?;
    let n = source.count();
    if n > CAPACITY || n > work.len() || n > table.len() {
        return None;
    }
    let planning = Planning {
        drawing: Drawing { source },
        settings,
    };
    let ranks = &mut work[..n];
    count_up(ranks);
    let extent = planning.plan_block(ranks, table, 0, 1);
    ranks.fill(0);
    Some(extent)
}

// A plan over the ranks of any elements is the tree of the elements.
pub fn plan_is_tree<T>()
    ensures { PlanIsTree T }
{}
