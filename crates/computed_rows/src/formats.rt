//! Rows that the definitions compute: each clause is an equation whose left side is a definition
//! at written values.
ghost use Rattle.std.specs.Prelude.{◌≡◌, [], ◌∷◌, ◌++◌, codes, length, true, false, Some, None, Ok, Err};
ghost use Rattle.tame_names.specs.Names.{HasCharacter, HasLength, IsReserved, path, prefix, refusal_of, strict_refusal};
ghost use Rattle.tame_names.specs.Paths.{join};
ghost use Rattle.tame_names.specs.Pieces.{pieces};
ghost use Rattle.tame_names.specs.declared.errors.ReservedNameKind.TheVariants.{Standard};
ghost use Rattle.tame_records.specs.Lines.{lines};
ghost use Rattle.tame_names.specs.declared.errors.CacheError.TheVariants.{InvalidCacheEntry, OtherIndex, OutdatedCacheVersion, UnknownCacheVersion, UnknownIndexVersion};
ghost use Rattle.tame_names.specs.declared.errors.InvalidJsonLines.TheVariants.{Empty, NotJson};
ghost use Rattle.tame_entry.specs.Config.{download_url, version_url};
ghost use Rattle.tame_entry.specs.Entry.{entry, pairs, read_entry};
ghost use Rattle.tame_entry.specs.Lines.{invalid};
ghost use Rattle.tame_entry.specs.Raw.{raw_version};
ghost use Rattle.tame_entry.specs.Revision.{Http};
ghost use Rattle.tame_entry.specs.declared.revisions.OwnedRevision.TheVariants.{Etag};
ghost use Rattle.tame_entry.specs.Scan.{line_flag};
ghost use Rattle.tame_names.specs.declared.errors.Error.TheVariants.{Http as HttpFault};
ghost use Rattle.tame_names.specs.declared.errors.HttpError.TheVariants.{InvalidHeaderValue};
ghost use Rattle.tame_sparse.specs.Named.{handed, named_file};
ghost use Rattle.tame_sparse.specs.Urls.{crate_url, is_sparse_url};

/// Names of crates and their places.
pub fn names()
    ensures four { path (codes "AbCd") ≡ Some (codes "ab/cd/abcd") }
    ensures underscore { path (codes "_boop-") ≡ Some (codes "_b/oo/_boop-") }
    ensures longer { path (codes "Inflector") ≡ Some (codes "in/fl/inflector") }
    ensures dot { path (codes "a.b") ≡ None }
    ensures three { prefix (codes "/") (codes "ABc") ≡ codes "3/A" }
    ensures empty { refusal_of [] ≡ Some (HasLength 0) }
    ensures long { strict_refusal (Some 64)
        (codes "aaaaaaaabbbbbbbbccccccccddddddddaaaaaaaabbbbbbbbccccccccddddddddxxxxxxx")
        ≡ Some (HasLength 71) }
    ensures unlimited { strict_refusal None
        (codes "aaaaaaaabbbbbbbbccccccccddddddddaaaaaaaabbbbbbbbccccccccddddddddxxxxxxx") ≡ None }
    ensures character { strict_refusal (Some 64) (codes "no.pe") ≡ Some (HasCharacter 46 2) }
    ensures digit { strict_refusal (Some 64) (codes "3nop") ≡ Some (HasCharacter 51 0) }
    ensures reserved { strict_refusal None (codes "proc-macro")
        ≡ Some (IsReserved (codes "proc-macro") Standard) }
{}

/// Bodies of lines, and paths.
pub fn lines_and_paths()
    ensures second { invalid (codes "{}\n\n{}") ≡ Some (NotJson 1) }
    ensures newlines { invalid (codes "\n\n") ≡ Some Empty }
    ensures two { lines (codes "{}\n[]\n\n") ≡ codes "{}" ∷ codes "[]" ∷ [] }
    ensures ended { pieces 44 (codes "a,,b,") ≡ codes "a" ∷ [] ∷ codes "b" ∷ [] }
    ensures below { join (codes "index") (codes "1/a") ≡ codes "index/1/a" }
    ensures absolute { join (codes "index/") (codes "/a") ≡ codes "/a" }
{}

/// Entries of the cache as bytes, and lines looked at without JSON.
pub fn entries()
    ensures bytes { entry (codes "sparse+https://index.crates.io/") (Http (Etag (codes "x")))
        (pairs (codes "{\"name\":\"a\",\"vers\":\"0.1.0\",\"yanked\":false}"))
        ≡ 4 ∷ 2 ∷ 0 ∷ 0 ∷ 0 ∷ codes "sparse+https://index.crates.io/" ++ 0 ∷ codes "etag: x" ++ 0
        ∷ codes "0.1.0" ++ 0
        ∷ codes "{\"name\":\"a\",\"vers\":\"0.1.0\",\"yanked\":false}" ++ 0 ∷ [] }
    ensures count { length (entry (codes "sparse+https://index.crates.io/")
        (Http (Etag (codes "x")))
        (pairs (codes "{\"name\":\"a\",\"vers\":\"0.1.0\",\"yanked\":false}"))) ≡ 94 }
    ensures nothing { read_entry (codes "u") [] ≡ Err InvalidCacheEntry }
    ensures old { read_entry (codes "u") (3 ∷ []) ≡ Err OutdatedCacheVersion }
    ensures new { read_entry (codes "u") (5 ∷ []) ≡ Err UnknownCacheVersion }
    ensures number { read_entry (codes "u") (4 ∷ 3 ∷ 0 ∷ 0 ∷ 0 ∷ []) ≡ Err UnknownIndexVersion }
    ensures other { read_entry (codes "sparse+https://h/")
        (entry (codes "sparse+https://index.crates.io/") (Http (Etag (codes "x")))
        (pairs (codes "{\"name\":\"a\",\"vers\":\"0.1.0\",\"yanked\":false}"))) ≡ Err OtherIndex }
    ensures revision { read_entry (codes "u") (4 ∷ 2 ∷ 0 ∷ 0 ∷ 0 ∷ codes "u" ++ 0
        ∷ codes "foo: x" ++ 0 ∷ codes "v" ++ 0 ∷ codes "{}" ++ 0 ∷ []) ≡ Err InvalidCacheEntry }
    ensures version { raw_version (codes "{\"name\":\"a\",\"vers\":\"0.1.0\",\"yanked\":false}")
        ≡ codes "0.1.0" }
    ensures behind { line_flag
        (codes "{\"name\":\"a\",\"vers\":\"0.1.0\",\"yanked\":true,\"links\":\"a,b\"}") ≡ Ok true }
    ensures cut_off { line_flag
        (codes "{\"name\":\"a\",\"vers\":\"0.1.0\",\"yanked\":true,\"links\":\"a}b\"}") ≡ Ok false }
{}

/// Where versions are downloaded from.
pub fn downloads()
    ensures markers { download_url (codes "ABc") (codes "0.1.0")
        (codes "https://complex.io/ohhi/embark/rust/cargo/{lowerprefix}/{crate}/{crate}/"
        ++ codes "{prefix}-{version}")
        ≡ codes "https://complex.io/ohhi/embark/rust/cargo/3/a/ABc/ABc/3/A-0.1.0" }
    ensures once { download_url (codes "a") (codes "{version}")
        (codes "https://r/{crate}/{version}") ≡ codes "https://r/a/{version}" }
    ensures crates_io { download_url (codes "aB") (codes "0.1.0")
        (codes "https://crates.io/api/v1/crates")
        ≡ codes "https://static.crates.io/crates/aB/aB-0.1.0.crate" }
    ensures nameless { version_url (codes "a.b") (codes "0.1.0") (codes "https://r") ≡ None }
{}

/// What requests name, and where an index is.
pub fn requests()
    ensures spaced { handed (Etag (codes " x ")) ≡ Ok (Some (Etag (codes "x"))) }
    ensures broken { handed (Etag (codes "a\nb")) ≡ Err (HttpFault InvalidHeaderValue) }
    ensures nothing { handed (Etag []) ≡ Ok None }
    ensures absent { named_file (codes "u") None ≡ None }
    ensures crate_file { crate_url (codes "sparse+https://index.crates.io/") (codes "a")
        ≡ Some (codes "https://index.crates.io/1/a") }
    ensures git { is_sparse_url (codes "https://github.com/rust-lang/crates.io-index") ≡ false }
{}
