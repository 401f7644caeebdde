// What a plan is made under.
ghost use Rattle.std.specs.Prelude.{◌≡◌, ◌≤◌, None, IfSome};
ghost use Rattle.planner.specs.Bounding.{Allowed};
ghost use Rattle.tree.specs.Tree.{fan_out};

// The most entries of a plan, and the largest ρ. The crate `image` has these limits too; neither stands on the other.
pub(crate) const CAPACITY: usize = 2000;

// The most entries of a block.
const ENTRIES: usize = 16;

// How many entries a block can hold, and what governs the fan-out.
#[derive(Clone, Copy)]
pub(crate) struct Settings {
    pub(crate) alpha: usize,
    pub(crate) rho: usize,
    ghost allowed: { Allowed alpha rho },
}

impl Settings {
    // The settings, if trees can be planned under them.
    pub(crate) fn new(alpha: usize, rho: usize) -> Option<Settings>
        ensures alpha { IfSome result (λ settings. settings.alpha ≡ alpha) }
        ensures rho { IfSome result (λ settings. settings.rho ≡ rho) }
        ensures refused { result ≡ None → Allowed alpha rho → ⊥ }
    {
        if (1..=ENTRIES).contains(&alpha) && (1..=CAPACITY).contains(&rho) {
            Some(Settings { alpha, rho })
        } else {
            None
        }
    }

    // The fan-out of a subtree of n entries.
    pub(crate) fn fan_out(self, n: usize) -> usize
        requires { n ≤ 2000 }
        ensures { result ≡ fan_out self.alpha self.rho n }
    {
        n.saturating_sub(self.alpha)
            .div_ceil(self.rho)
            .clamp(1, self.alpha + 1)
    }
}
