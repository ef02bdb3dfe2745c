//! Laws that hold for every boot text, and for every mode.

ghost use Rattle.m36_dir.specs.IsCatalog.{ReadsIntoCatalogs, NamesAreThoseOfTheText, NamesOnce};
ghost use Rattle.m36_dir.specs.IsCatalog.{DirectoriesOnce, FoundByEachName};
ghost use Rattle.m36_dir.specs.BootLine.{ModesHaveWords};

/// A text that is parsed yields a catalog as `IsCatalog` defines it: 1 to 8,192 frames, 1 to 512
/// segments, each with 1 to 8 names and its ring brackets in order, at most 16 libraries, and only
/// numbers of existing directories. Its names are those that the lines of the text put into
/// directories. No name occurs twice in a directory, and no directory twice in the catalog. Each
/// segment is found by each of its names. Each mode is parsed from its word.
pub fn catalog_laws()
    ensures catalogs { ReadsIntoCatalogs }
    ensures names { NamesAreThoseOfTheText }
    ensures once { NamesOnce }
    ensures directories { DirectoriesOnce }
    ensures found { FoundByEachName }
    ensures modes { ModesHaveWords }
{}
