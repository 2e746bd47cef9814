//! That each association walks the rows of the table.

ghost use Rattle.std.specs.Prelude.{ℕ, Bool, if◌then◌else◌};
ghost use Rattle.xa_xid.specs.declared.xid.Xid.{Xid as AnyXid};
ghost use Rattle.xa_words.specs.call;
ghost use Rattle.xa_assoc.specs.Associations.{AssocList, IsRowOf, start_plan, resume_plan, suspend_plan, end_plan};

/// Whatever row a call makes is in the table of associations, at that call.
pub fn walks_rows()
    ensures start { (a : AssocList) (t : ℕ) (x : AnyXid) → IsRowOf call.Start (start_plan a t x) }
    ensures join { (a : AssocList) (t : ℕ) (x : AnyXid) → IsRowOf call.StartJoin (start_plan a t x) }
    ensures resume { (a : AssocList) (t : ℕ) (x : AnyXid) (lost : Bool)
        → IsRowOf call.StartResume (resume_plan a t x lost) }
    ensures suspend { (a : AssocList) (t : ℕ) (x : AnyXid) (lost migrate : Bool)
        → IsRowOf (if migrate then call.EndMigrate else call.EndSuspend) (suspend_plan a t x lost migrate) }
    ensures end { (a : AssocList) (t : ℕ) (x : AnyXid) (lost succeeds : Bool)
        → IsRowOf (if succeeds then call.EndSuccess else call.EndFail) (end_plan a t x lost succeeds) }
{}
