use crate::sessions::SessionSet;
use base::fault::Fault;
use number_set::NumberSet;
use std::alloc::Global;
use std::marker::Model;

/// For each line the sessions whose transactions touch it: what their writes fill and end, and so what has to be flushed and fenced
/// before a record may cover them.
#[derive(Drop)]
pub struct DirtyTable {
    sessions: Vec<SessionSet>,
    // The lines that some session touches.
    touched: NumberSet,
}

impl Model for DirtyTable {
    ghost use Rattle.std.specs.Prelude.{List};
    ghost use Rattle.dirty_table.specs.declared.sessions.SessionSet.{SessionSet as Sessions};
    ghost use Rattle.dirty_table.specs.Touches.{IsNoted};

    ghost Value = { List Sessions };

    ghost view = { λ t. t.sessions.items };

    ghost invariant = { λ t. IsNoted t.sessions.items t.touched };
}

impl DirtyTable {
    ghost use Rattle.std.specs.Prelude.{ℕ, ◌≡◌, ◌^◌, ◌<◌, ◌≤◌, ◌&&◌, not, false, nat_eq, nat_le, find, length, [], ◌∷◌, IsTrue, IfErr, IfOk, IfSome, IfNone};
    ghost use Rattle.base.specs.Records.{are_rising};
    ghost use Rattle.base.specs.declared.fault.Fault.TheVariants.{OutOfMemory};
    ghost use Rattle.dirty_table.specs.Touches.{has, is_touched, lines_touched, meets, sessions_at, Forgets, Touches, IsNextTouched, IsUntouchedFrom};

    /// A table with this many lines; no session touches any of them.
    pub fn new(alloc: Global, lines: usize) -> Result<DirtyTable, Fault>
        requires { lines < 2 ^ 62 }
        ensures lines { IfOk result (λ table. length table ≡ lines) }
        ensures touches { IfOk result (λ table. (n line : ℕ) → is_touched table n line ≡ false) }

        // It is refused only for lack of memory.
        ensures fault { IfErr result (λ fault. fault ≡ OutOfMemory) }
    {
        let Ok(sessions) = vec![in alloc; SessionSet::none(); lines] else {
            return Err(Fault::OutOfMemory);
        };
        let Ok(touched) = NumberSet::new(alloc, lines) else {
            return Err(Fault::OutOfMemory);
        };
        Ok(DirtyTable { sessions, touched })
    }

    /// Whether the session touches the line.
    pub fn is_touched(&self, session: u8, line: u64) -> bool
        ensures { result ≡ is_touched self.now session line }
    {
        match self.sessions.get(line as usize) {
            Some(sessions) => sessions.contains(session),
            None => false,
        }
    }

    /// The session touches the line too, and the lines of others stay (`Touches`). It takes no memory, and its time doesn't grow
    /// with the lines that are touched.
    #[inline(always)]
    pub fn touch(&mut self, session: u8, line: u64)
        requires session { session < 64 }
        requires line { line < length self.old }
        ensures { Touches session (line ∷ []) self.old self.new }
    {
        self.sessions[line as usize].insert(session);
        self.touched.insert(line as usize);
    }

    /// These sessions touch no line any more, and the lines of others stay (`Forgets`).
    pub fn forget(&mut self, sessions: &SessionSet)
        ensures { Forgets sessions.now self.old self.new }
    {
        let mut from = 0;
        while let Some(line) = self.next_touched(from) {
            self.forget_line(line, sessions);
            from = line + 1;
        }
    }

    // These sessions don't touch the line any more.
    #[inline(always)]
    fn forget_line(&mut self, line: usize, sessions: &SessionSet)
        requires { line < length self.old }
        ensures touched { (n k : ℕ) → is_touched self.new n k ≡ (is_touched self.old n k && not (nat_eq k line && has sessions.now n)) }
        ensures size { length self.new ≡ length self.old }
    {
        self.sessions[line].remove_all(sessions);
        if self.sessions[line].is_empty() {
            self.touched.remove(line);
        }
    }

    // The lowest line, from this one on, that may be touched.
    #[inline(always)]
    fn next_touched(&self, from: usize) -> Option<usize>
        ensures some { IfSome result (IsNextTouched self.now from) }
        ensures none { IfNone result (IsUntouchedFrom self.now from) }
    {
        self.touched.first_from(from)
    }

    /// The lowest line, from this one on, that one of the sessions touches.
    #[inline(always)]
    pub fn next(&self, sessions: &SessionSet, from: u64) -> Option<u64>
        // Of their lines, which are listed by rising line and each once, it is the first that isn't below. So a walk meets each
        // once. It takes no memory.
        ensures line { result ≡ find (nat_le from) (lines_touched sessions.now self.now) }
        ensures rising { IsTrue (are_rising (lines_touched sessions.now self.now)) }
    {
        let mut low = from as usize;
        while let Some(line) = self.next_touched(low) {
            if self.meets(line, sessions) {
                return Some(line as u64);
            }
            low = line + 1;
        }
        None
    }

    // Whether one of the sessions touches the line.
    #[inline(always)]
    fn meets(&self, line: usize, sessions: &SessionSet) -> bool
        requires { line < length self.now }
        ensures { result ≡ meets sessions.now (sessions_at self.now line) }
    {
        self.sessions[line].meets(sessions)
    }
}
