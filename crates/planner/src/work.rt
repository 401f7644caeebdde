// The work area of planning: the ranks, in key order at first.
ghost use Rattle.std.specs.Prelude.{◌≡◌, ◌≤◌, length};
ghost use Rattle.std.specs.List.{range_with_len};

// Writes the ranks from 0 on.
pub(crate) fn count_up(ranks: &mut [u16])
    requires { length ranks.old ≤ 2000 }
    ensures { ranks.new ≡ range_with_len 0 (length ranks.old) }
{
    for (place, rank) in ranks.iter_mut().enumerate() {
        *rank = place as u16;
    }
}
