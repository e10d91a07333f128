ghost use Rattle.std.specs.Prelude.{◌≡◌, filter};
ghost use Rattle.pmem_file.specs.Flushes.{is_of_another};

/// As many actors flush lines.
pub(crate) const MOST_ACTORS: usize = 64;

/// A line that an actor flushed, and has not fenced yet.
#[derive(Clone, Copy, Debug)]
pub(crate) struct Flushed {
    pub(crate) actor: u8,
    pub(crate) line: usize,
}

/// What the actor flushed is fenced.
#[inline(always)]
pub(crate) fn forget(flushed: &mut Vec<Flushed>, actor: u8)
    ensures { flushed.new.items ≡ filter (is_of_another actor) flushed.old.items }
{
    forget_last(flushed, actor);
    if !flushed.is_empty() {
        forget_each(flushed, actor);
    }
}

// The same, where another flushed a line after it.
#[cold]
#[inline(never)]
fn forget_each(flushed: &mut Vec<Flushed>, actor: u8)
    ensures { flushed.new.items ≡ filter (is_of_another actor) flushed.old.items }
{
    flushed.retain(|one| one.actor != actor);
}

// What the actor flushed last, up to what another flushed. Mostly it is all that there is.
#[inline(always)]
fn forget_last(flushed: &mut Vec<Flushed>, actor: u8)
    ensures { filter (is_of_another actor) flushed.new.items ≡ filter (is_of_another actor) flushed.old.items }
{
    while let Some(last) = flushed.as_slice().last() {
        if last.actor != actor {
            return;
        }
        let _ = flushed.pop();
    }
}
