//! Laws of the control. Each is the contract of a function that does nothing.
ghost use Rattle.std.specs.Prelude.{◌≡◌, ◌<◌, ◌+◌, ℕ, Bool, true, false, List, Some, None};
ghost use Rattle.iq_base.specs.Shorts.{Name};
ghost use Rattle.iq_base.specs.declared.refusals.Refusal.{Refusal};
ghost use Rattle.iq_base.specs.declared.refusals.Refusal.TheVariants as refusals;
ghost use Rattle.iq_ast.specs.declared.statements.Statement.TheVariants as statements;
ghost use Rattle.iq_model.specs.declared.scripts.Script.{Script};
ghost use Rattle.iq_statements.specs.Tables.{Database};
ghost use Rattle.iq_replay.specs.State.{State};
ghost use Rattle.iq_replay.specs.Start.{start};
ghost use Rattle.iq_control.specs.Opened.{IsOpened};
ghost use Rattle.iq_replay.specs.Asked.{OfLine, IsOpen, Rises};
ghost use Rattle.iq_replay.specs.Causes.{CanRefuse, IsWorking};
ghost use Rattle.iq_replay.specs.Histories.{replay};
ghost use Rattle.iq_replay.specs.Lines.{first_running};
ghost use Rattle.iq_sessions.specs.Bare.{At};
ghost use Rattle.iq_sessions.specs.Table.{TableState, CommitsAt};
ghost use Rattle.iq_control.specs.Control.{ControlState, Agrees, Follows};
ghost use Rattle.iq_control.specs.Changes.{begun, locked_more, took, refused_line, committed_at, ended, rolled_back, rolled_at_end, halted_at, saved, went_back, released};
ghost use Rattle.iq_control.specs.Asked.{AtLine, IsSnapshot, AsksBegin, AsksLock, AsksTake, AsksEnd, AsksRun, AreFree, AreRefused, IsNotAdmitted, HasLost, IsWriting, IsHaltedCommit, IsAdmitted, AreNamed, AreFit, IsNamed, IsUnrefused};

/// The control of a script before the first entry follows from any tables.
pub fn the_control_follows_an_opening()
    ensures { (blocks : ℕ) (told : Bool) (script : Script) (opening : Database) (c : ControlState) → IsOpened script c
        → Follows (start blocks told script opening) c }
{}

/// A transaction begins at its node's position, where nothing before a statement's own tests refuses the line.
pub fn the_control_follows_a_begin()
    ensures { (first : State) (c : ControlState) (place l commit : ℕ) (own : Bool) → Follows first c
        → AtLine c place l (AsksBegin c own) → At place c.table.sessions (λ session. IsSnapshot c session commit)
        → Follows first (begun place l own commit c) }
{}

/// The names of a write are locked that no other session holds and that weren't written past the snapshot, where nothing has halted
/// and the tables refuse no name and no value.
pub fn the_control_follows_a_lock()
    ensures { (first : State) (c : ControlState) (place l : ℕ) (names : List Name) → Follows first c
        → AtLine c place l (AsksLock names) → At place c.table.sessions (AreFree c place names) → c.halted ≡ None
        → OfLine (replay first c.entries) place l (IsNamed (replay first c.entries) place)
        → Follows first (locked_more place l names c) }
{}

/// A statement on tables takes effect whose names are held, where nothing but a halt refuses it.
pub fn the_control_follows_an_effect()
    ensures { (first : State) (c : ControlState) (place l : ℕ) (created : List Name) → Follows first c
        → AtLine c place l (AsksTake created)
        → OfLine (replay first c.entries) place l (IsUnrefused (replay first c.entries) place)
        → Follows first (took place l created c) }
{}

/// A transaction that holds a name ends with the next commit, while nothing has halted; one that holds none ends without.
pub fn the_control_follows_an_end()
    ensures commit { (first : State) (c : ControlState) (place l : ℕ) (table : TableState) → Follows first c
        → AtLine c place l (AsksEnd true) → c.halted ≡ None → CommitsAt place (c.latest + 1) c.table table
        → Follows first (committed_at place l table c) }
    ensures end { (first : State) (c : ControlState) (place l : ℕ) → Follows first c
        → AtLine c place l (AsksEnd false) → Follows first (ended place l c) }
    ensures halt { (first : State) (c : ControlState) (place l before after : ℕ) → Follows first c
        → AtLine c place l (AsksEnd true) → c.halted ≡ None → Rises c.faults before after
        → Follows first (halted_at place l before after c) }
{}

/// A transaction is rolled back by its line; at the script's end that of the first session that still runs one.
pub fn the_control_follows_a_rollback()
    ensures line { (first : State) (c : ControlState) (place l : ℕ) → Follows first c → 0 < l
        → AtLine c place l (AsksRun c statements.Rollback) → Follows first (rolled_back place l c) }
    ensures at_end { (first : State) (c : ControlState) (place : ℕ) → Follows first c
        → first_running 0 c.table.sessions ≡ Some place → Follows first (rolled_at_end place c) }
{}

/// A savepoint stands, or one is gone back to, or released, where nothing refuses the line. The names that are held stay.
pub fn the_control_follows_a_savepoint()
    ensures save { (first : State) (c : ControlState) (place l : ℕ) (name : Name) → Follows first c
        → AtLine c place l (AsksRun c (statements.Savepoint name)) → Follows first (saved place l name c) }
    ensures back { (first : State) (c : ControlState) (place l : ℕ) (name : Name) → Follows first c
        → AtLine c place l (AsksRun c (statements.BackTo name)) → Follows first (went_back place l name c) }
    ensures release { (first : State) (c : ControlState) (place l : ℕ) (name : Name) → Follows first c
        → AtLine c place l (AsksRun c (statements.Release name)) → Follows first (released place l name c) }
{}

/// A line is refused for a cause that it can meet.
pub fn the_control_follows_a_refusal()
    ensures { (first : State) (c : ControlState) (place l : ℕ) (cause : Refusal) → Follows first c
        → OfLine (replay first c.entries) place l (CanRefuse (replay first c.entries) place cause)
        → Follows first (refused_line place l cause c) }
{}

/// Which causes a line can meet in each state with which the control agrees, by what the control knows: the first of the tests
/// before a statement's own; a transaction that was lost; a halt, before a write or a COMMIT; a name that isn't free; a device
/// fault; want of memory.
pub fn the_control_knows_causes()
    ensures admitted { (c : ControlState) (s : State) (place l : ℕ) (cause : Refusal) → Agrees c s
        → AtLine c place l (IsNotAdmitted c cause) → OfLine s place l (CanRefuse s place cause) }
    ensures lost { (c : ControlState) (s : State) (place l incarnation : ℕ) → Agrees c s
        → AtLine c place l (HasLost c incarnation) → OfLine s place l (CanRefuse s place (refusals.Lost incarnation)) }
    ensures halted { (c : ControlState) (s : State) (place l commit : ℕ) → Agrees c s
        → AtLine c place l IsWriting → c.halted ≡ Some commit → OfLine s place l (IsNamed s place)
        → OfLine s place l (CanRefuse s place (refusals.Halted commit)) }
    ensures halted_commit { (c : ControlState) (s : State) (place l commit : ℕ) → Agrees c s
        → AtLine c place l (IsHaltedCommit c) → c.halted ≡ Some commit
        → OfLine s place l (CanRefuse s place (refusals.Halted commit)) }
    ensures names { (c : ControlState) (s : State) (place l : ℕ) (cause : Refusal) → Agrees c s
        → AtLine c place l (AreRefused c place cause) → c.halted ≡ None → OfLine s place l (IsNamed s place)
        → OfLine s place l (CanRefuse s place cause) }
    ensures fault { (c : ControlState) (s : State) (place l before after : ℕ) → Agrees c s
        → AtLine c place l IsWorking → Rises c.faults before after
        → OfLine s place l (CanRefuse s place (refusals.StoreFault before after)) }
    ensures memory { (c : ControlState) (s : State) (place l : ℕ) → Agrees c s
        → AtLine c place l (λ session statement. IsOpen session.stage)
        → OfLine s place l (CanRefuse s place refusals.NoMemory) }
{}

/// What nothing refuses: where the tests before a statement's own and those of its names and values find nothing, nothing but a halt,
/// a lock, a later commit or want of room does; where its names are held too and there is room, nothing but a halt.
pub fn the_control_admits_lines()
    ensures named { (c : ControlState) (s : State) (place l : ℕ) → Agrees c s
        → AtLine c place l (IsAdmitted c.nodes) → OfLine s place l AreNamed → OfLine s place l (IsNamed s place) }
    ensures unrefused { (c : ControlState) (s : State) (place l : ℕ) → Agrees c s
        → AtLine c place l (IsAdmitted c.nodes) → OfLine s place l AreFit → OfLine s place l (IsUnrefused s place) }
{}
