//! What the definitions give for published values.
ghost use Rattle.std.specs.Prelude.{◌≡◌, ◌∷◌, [], codes, false, Ok, Err};
ghost use Rattle.tame_names.specs.declared.errors.InvalidUrlError.TheVariants.{MissingScheme};
ghost use Rattle.tame_location.specs.Folders.{dir_of};
ghost use Rattle.tame_location.specs.SipHash.{sip_hash_2_4};
ghost use Rattle.tame_location.specs.Urls.{canonical_url, refused_url};

/// Published values of SipHash-2-4 (its authors' reference vectors): the key 00 01 .. 0f, and the
/// messages of the bytes 00 01 .. of length 0, 7, 8 and 15.
pub fn sip_hash_examples()
    ensures empty { sip_hash_2_4 0x0706050403020100 0x0f0e0d0c0b0a0908
        [] ≡ 0x726fdb47dd0e0e31 }
    ensures seven { sip_hash_2_4 0x0706050403020100 0x0f0e0d0c0b0a0908
        (0 ∷ 1 ∷ 2 ∷ 3 ∷ 4 ∷ 5 ∷ 6 ∷ []) ≡ 0xab0200f58b01d137 }
    ensures whole { sip_hash_2_4 0x0706050403020100 0x0f0e0d0c0b0a0908
        (0 ∷ 1 ∷ 2 ∷ 3 ∷ 4 ∷ 5 ∷ 6 ∷ 7 ∷ []) ≡ 0x93f5f5799a932462 }
    ensures authors { sip_hash_2_4 0x0706050403020100 0x0f0e0d0c0b0a0908
        (0 ∷ 1 ∷ 2 ∷ 3 ∷ 4 ∷ 5 ∷ 6 ∷ 7 ∷ 8 ∷ 9 ∷ 10 ∷ 11 ∷ 12 ∷ 13 ∷ 14 ∷ [])
        ≡ 0xa129ca6149be45e5 }
{}

/// The folders of five indices, as cargo before 1.85.0 names them.
pub fn folder_examples()
    ensures github { dir_of false (λ kind url. 0)
        (codes "https://github.com/EmbarkStudios/cargo-test-index")
        ≡ Ok (record {
          dir_name = codes "github.com-655148e0a865c9e0";
          canonical = codes "https://github.com/EmbarkStudios/cargo-test-index";
        }) }
    ensures cloudsmith { dir_of false (λ kind url. 0)
        (codes "https://dl.cloudsmith.io/public/embark/deny/cargo/index.git")
        ≡ Ok (record {
          dir_name = codes "dl.cloudsmith.io-955e041deb7d37e6";
          canonical = codes "https://dl.cloudsmith.io/public/embark/deny/cargo/index.git";
        }) }
    ensures advisories { dir_of false (λ kind url. 0)
        (codes "https://github.com/RustSec/advisory-db")
        ≡ Ok (record {
          dir_name = codes "github.com-a946fc29ac602819";
          canonical = codes "https://github.com/RustSec/advisory-db";
        }) }
    ensures git { dir_of false (λ kind url. 0)
        (codes "https://github.com/rust-lang/crates.io-index")
        ≡ Ok (record {
          dir_name = codes "github.com-1ecc6299db9ec823";
          canonical = codes "https://github.com/rust-lang/crates.io-index";
        }) }
    ensures sparse { dir_of false (λ kind url. 0) (codes "sparse+https://index.crates.io/")
        ≡ Ok (record {
          dir_name = codes "index.crates.io-6f17d22bba15001f";
          canonical = codes "sparse+https://index.crates.io/";
        }) }
{}

/// Canonical urls.
pub fn url_examples()
    ensures lowered { canonical_url (codes "https://github.com/EmbarkStudios/cargo-test-index")
        ≡ Ok (codes "https://github.com/embarkstudios/cargo-test-index") }
    ensures ends { canonical_url (codes "https://x.example/A.git/")
        ≡ Ok (codes "https://x.example/A") }
    ensures bare { canonical_url (codes "a/b") ≡ Err (refused_url (codes "a/b") MissingScheme) }
{}
