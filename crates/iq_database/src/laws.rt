//! Laws of databases. Each is the contract of a function that does nothing.
ghost use Rattle.std.specs.Prelude.{◌≡◌, ◌<◌, ◌/◌, ℕ, List, Option, length};
ghost use Rattle.iq_base.specs.declared.descriptors.Descriptor.{Descriptor};
ghost use Rattle.iq_pages.specs.Pages.{Pages};
ghost use Rattle.iq_statements.specs.Tables.{Database};
ghost use Rattle.iq_database.specs.Standing.{Describe, Stand};

/// Descriptors tell the names, columns and indexes of each database for which they stand.
pub fn what_stands_is_told()
    ensures { (told : ℕ → Option Pages) (ds : List Descriptor) (db : Database) → Stand told ds db → Describe ds db }
{}

/// For which database descriptors stand depends on the pages of the tables' own objects alone.
pub fn a_database_stands_on_its_objects()
    ensures { (told told' : ℕ → Option Pages) (ds : List Descriptor) (db : Database)
        → ((object : ℕ) → object / 256 < length ds → told' object ≡ told object) → Stand told ds db → Stand told' ds db }
{}
