// An area with its used mark.
ghost use Rattle.probes.specs.Limits.{UsedIn};

// An area that is not too long, and a used mark that lies in it.
#[derive(Clone, Copy)]
pub struct Used<'a> {
    pub area: &'a [u8],
    pub mark: usize,
    ghost inside: { UsedIn area.now mark },
}
