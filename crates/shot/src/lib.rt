// A shot's setting and mask, which the writer and the reader of codestreams share.
#![tactic(auto)]

ghost use Rattle.std.specs.Prelude.{◌≡◌, length, IfOk};
ghost use Rattle.kernel.specs.Kernels.{the_kernel};
ghost use Rattle.refusal.specs.Numbers.{answer_number, first};
ghost use Rattle.shot.specs.Inner.{Drawable};
ghost use Rattle.shot.specs.Shots.{mask_bytes, setting_tests};

use kernel::Kernel;
use refusal::{Refusal, refuse};
use setting::Setting;

// The kernel of a setting, or the first refusal of the setting. Refusals, in order: 1, 2, 3, 4.
#[tactic(auto, unfolding(refusal::specs::Numbers::first))]
pub fn take_setting(setting: Setting) -> Result<Kernel, Refusal>
    ensures number { answer_number result ≡ first (setting_tests setting.kernel setting.levels setting.depth setting.width setting.height) }
    ensures chosen { IfOk result (λ chosen. chosen ≡ the_kernel setting.kernel) }
{
    let chosen = refusal::known_kernel(setting.kernel)?;
    refuse(refusal::bad_levels(setting.levels), Refusal::Levels)?;
    refuse(refusal::bad_depth(setting.depth), Refusal::Depth)?;
    refuse(
        refusal::bad_size(setting.width, setting.height),
        Refusal::Size,
    )?;
    Ok(chosen)
}

// Fills the mask from rectangle numbers: draws their region there, placed, and makes its mask in place.
pub fn draw_mask(
    kernel: Kernel,
    levels: usize,
    w: usize,
    h: usize,
    numbers: &[u32],
    mask: &mut [u8],
)
    requires { Drawable levels w h numbers.now (length mask.old) }
    ensures { mask.new ≡ mask_bytes kernel levels w h numbers.now }
{
    region::draw_placed(numbers, w, h, mask);
    picture_mask::mask_levels(kernel, levels, w, h, mask);
}
