// A fresh area.
ghost use Rattle.std.specs.Prelude.{◌≡◌};
ghost use Rattle.layout.specs.Refusals.{leaves, verdict_number};
ghost use Rattle.builder.specs.Fresh.{format_steps};

use layout::{Backup, Header, Refusal};

// Makes the whole buffer a fresh area.
#[tactic(auto, unfolding(crate::specs::Fresh::format_steps, crate::specs::Fresh::fresh, words::specs::Stores::run))]
pub fn format(area: &mut [u8]) -> Result<(), Refusal>
    ensures { leaves (verdict_number result) area.new ≡ format_steps area.old }
{
    if area.len() < Header::FORMAT_MIN {
        return Err(Refusal::BadHeader);
    }
    if Header::AREA_MAX < area.len() {
        return Err(Refusal::BadHeader);
    }
    let magic = Header::PROP_AREA_MAGIC;
    words::clear(area);
    words::put_word(area, Header::USED, Backup::END as u32);
    words::copy(area, Header::MAGIC, &magic);
    words::put_word(area, Header::VERSION, Header::PROP_AREA_VERSION);
    Ok(())
}
