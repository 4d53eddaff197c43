// The backup slot.
ghost use Rattle.std.specs.Prelude.{◌≡◌};
ghost use Rattle.layout.specs.Refusals.{leaves, verdict_number};
ghost use Rattle.property_area.specs.Backup.{backup_steps};

use layout::{Backup, Header, Refusal};
use trie::header_ok;

// Fills the buffer with as many of the slot's bytes as it holds.
#[tactic(auto, using(crate::proofs::BackupLaws::backup_filled), unfolding(crate::specs::Backup::backup_steps))]
pub fn read_dirty_backup(area: &[u8], buffer: &mut [u8]) -> Result<(), Refusal>
    ensures { leaves (verdict_number result) buffer.new ≡ backup_steps area.now buffer.old }
{
    if !header_ok(area) {
        return Err(Refusal::BadHeader);
    }
    if Backup::SIZE <= buffer.len() {
        return Err(Refusal::TooLong);
    }
    if layout::data_size(area) < Backup::AT + buffer.len() {
        return Err(Refusal::Damaged);
    }
    let from = Header::SIZE + Backup::AT;
    let to = from + buffer.len();
    words::copy(buffer, 0, &area[from..to]);
    Ok(())
}
