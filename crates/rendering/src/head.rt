// Block 0 of a chapter, written from its settings and counts.
ghost use Rattle.std.specs.Prelude.{◌≡◌, true, if◌then◌else◌, is_ok};
ghost use Rattle.std.specs.Result.{result_err};
ghost use Rattle.image.specs.Image.{head_block};
ghost use Rattle.image.specs.Reading.{head_sound};
ghost use Rattle.image.specs.Refusals.{head_refusal};

use crate::draft::Draft;
use fields::LittleEndian;
use image::{Head, HeadFault, MARK, VERSION};
use kinds::EntryKind;

fn write_head<K: EntryKind>(head: &Head, block: &mut [u8; 256])
    requires { head_sound K.kind.width head.now ≡ true }
    ensures { block.new ≡ head_block K.kind head.now.settings head.now.chapter head.now.counts }
{
    let settings = head.settings;
    let counts = head.counts;
    let mut draft = Draft::over(block);
    draft.put(&MARK);
    draft.put(&VERSION.to_bytes());
    draft.put(&[K::kind_number(), settings.alpha as u8]);
    draft.put(&(settings.rho as u16).to_bytes());
    draft.put(&(settings.capacity as u16).to_bytes());
    draft.put(&(counts.entries as u16).to_bytes());
    draft.put(&(counts.blocks as u16).to_bytes());
    draft.put(&counts.measure.to_bytes());
    draft.put(&head.chapter.to_bytes());
    draft.finish();
}

// Writes what a head says as block 0. It is refused, and the block left as it was, if a setting is out of its limits, or a count
// beyond what the settings allow.
pub fn render_head<K: EntryKind>(head: &Head, block: &mut [u8; 256]) -> Result<(), HeadFault>
    ensures answer { is_ok result ≡ head_sound K.kind.width head.now }
    ensures refusal { result_err result ≡ head_refusal K.kind.width head.now }
    ensures block { block.new ≡ (if head_sound K.kind.width head.now then head_block K.kind head.now.settings head.now.chapter head.now.counts else block.old) }
{
    if let Some(fault) = head.fault(K::message_width()) {
        return Err(fault);
    }
    write_head::<K>(head, block);
    Ok(())
}
