//! The laws of a log that was migrated.

ghost use Rattle.migrate_engine.specs.Laws.{MigratedStays, SameRecords};

/// A log that was migrated reads as the same records, and has no torn tail. Migrated once more, it stays as
/// it is.
pub fn migrated_logs_stay()
    ensures same_records { SameRecords }
    ensures stays { MigratedStays }
{}
