// The settings of a chapter, and their limits.
ghost use Rattle.std.specs.Prelude.{◌≡◌};
ghost use Rattle.std.specs.Option.{option_map};
ghost use Rattle.image.specs.Coded.{setting_coded};
ghost use Rattle.image.specs.Settings.{alpha_fits, settings_fit, settings_refusal, up_to2000};

// How many entries a block can hold, the parameter of the fan-out, and how many entries the chapter can hold: any numbers,
// within their limits or not.
#[derive(Clone, Copy, PartialEq, Eq, Debug)]
pub struct Settings {
    pub alpha: usize,
    pub rho: usize,
    pub capacity: usize,
}

// A setting that is out of its limits.
#[derive(Clone, Copy, PartialEq, Eq, Debug)]
pub enum Setting {
    Alpha,
    Rho,
    Capacity,
}

// The planner and the stores have these numbers too; they do not stand on this crate, nor it on them.
const MOST_IN_BLOCK: usize = 16;

const MOST: usize = 2_000;

const BLOCK_SIZE: usize = 256;

// Whether a block has room for so many slots of the width, and one more section record than slots.
pub fn alpha_fits(width: usize, alpha: usize) -> bool
    ensures { result ≡ alpha_fits width alpha }
{
    let slots = alpha.saturating_mul(width);
    (1..=MOST_IN_BLOCK).contains(&alpha) && slots.saturating_add(8 + 8 * (alpha + 1)) <= BLOCK_SIZE
}

fn up_to_2000(n: usize) -> bool
    ensures { result ≡ up_to2000 n }
{
    (1..=MOST).contains(&n)
}

impl Settings {
    // The first setting that is out of its limits, for messages of the width.
    pub fn out_of_limits(&self, width: usize) -> Option<Setting>
        ensures { option_map setting_coded result ≡ settings_refusal width self.now }
    {
        if !alpha_fits(width, self.alpha) {
            return Some(Setting::Alpha);
        }
        if !up_to_2000(self.rho) {
            return Some(Setting::Rho);
        }
        if !up_to_2000(self.capacity) {
            return Some(Setting::Capacity);
        }
        None
    }

    // All settings are within their limits, for messages of the width.
    pub fn fit(&self, width: usize) -> bool
        ensures { result ≡ settings_fit width self.now }
    {
        self.out_of_limits(width).is_none()
    }
}
