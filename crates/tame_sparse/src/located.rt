//! Indices at their locations.
ghost use Rattle.std.specs.Prelude.{◌≡◌, ◌≢◌, ◌⊎◌, true, false, Ok, Err, None, IfOk, IfErr};
ghost use Rattle.tame_location.specs.Calls.{AddsFailed, HasCallCause};
ghost use Rattle.tame_location.specs.Homes.{IsHomeCall, IsTold};
ghost use Rattle.tame_location.specs.IndexUrls.{is_sparse};
ghost use Rattle.tame_location.specs.Locations.{ToldAt};
ghost use Rattle.tame_location.specs.declared.locations.IndexPath.TheVariants.{CargoHome};
ghost use Rattle.tame_sparse.specs.Located.{IsPlaceError, git_place, missing_sparse, sparse_for_git, sparse_place};

use crate::git::GitIndex;
use crate::sparse::SparseIndex;
use std::alloc::Global;
use tame_cache::IndexCache;
use tame_location::{Ident, IndexLocation, refused_url};
use tame_names::{Error, Files, InvalidUrlError};

impl SparseIndex {
    /// The sparse index of a location, with its cache in its folder: the folder and the url are
    /// those of `IndexLocation::into_parts`. `InvalidUrl(MissingSparse)` if the url isn't one of a
    /// sparse index, and then the errors of `into_parts`.
    pub fn new<F: Files, I: Ident>(
        alloc: Global,
        files: &mut F,
        ident: &I,
        location: IndexLocation<'_>,
    ) -> Result<SparseIndex, Error>
        ensures ok { ToldAt location.entry.root F.tells → IfOk result (λ index.
            sparse_place (I.number ident.now) location.entry (F.host files.old)
            ≡ Ok (index.cache.path, index.cache.index)) }
        ensures refused { ToldAt location.entry.root F.tells → IfErr result (λ e. IsTold e
            → sparse_place (I.number ident.now) location.entry (F.host files.old) ≡ Err e) }
        ensures kind { is_sparse location.entry.url ≡ false
            → (files.new ≡ files.old) × ((result ≡ Err (missing_sparse location.entry.url))
            ⊎ (result ≡ Err Error.NoMemory)) }
        ensures only { IfErr result
            (IsPlaceError (missing_sparse location.entry.url) location.entry) }
        ensures cause { HasCallCause (F.faults files.old) (F.faults files.new) result }
        ensures failed { F.tells → AddsFailed (IsHomeCall (F.host files.old))
            (F.failed files.old) (F.failed files.new) result }
        ensures same { F.tells → F.host files.new ≡ F.host files.old }
        ensures stated { location.entry.root ≢ CargoHome → files.new ≡ files.old }
    {
        if !location.url.is_sparse() {
            return Err(refused_url(alloc, location.url.as_str(), InvalidUrlError::MissingSparse));
        }
        let (path, url) = location.into_parts(alloc, files, ident)?;
        Ok(SparseIndex {
            cache: IndexCache::at_path(path, url),
        })
    }
}

impl GitIndex {
    /// The git index of a location, with its cache in its folder, and without a head: the folder
    /// and the url are those of `IndexLocation::into_parts`. `InvalidUrl(SparseForGit)` if the url
    /// is one of a sparse index, and then the errors of `into_parts`.
    pub fn new<F: Files, I: Ident>(
        alloc: Global,
        files: &mut F,
        ident: &I,
        location: IndexLocation<'_>,
    ) -> Result<GitIndex, Error>
        ensures ok { ToldAt location.entry.root F.tells → IfOk result (λ index.
            git_place (I.number ident.now) location.entry (F.host files.old)
            ≡ Ok (index.cache.path, index.cache.index)) }
        ensures refused { ToldAt location.entry.root F.tells → IfErr result (λ e. IsTold e
            → git_place (I.number ident.now) location.entry (F.host files.old) ≡ Err e) }
        ensures kind { is_sparse location.entry.url ≡ true
            → (files.new ≡ files.old) × ((result ≡ Err (sparse_for_git location.entry.url))
            ⊎ (result ≡ Err Error.NoMemory)) }
        ensures only { IfErr result
            (IsPlaceError (sparse_for_git location.entry.url) location.entry) }
        ensures cause { HasCallCause (F.faults files.old) (F.faults files.new) result }
        ensures failed { F.tells → AddsFailed (IsHomeCall (F.host files.old))
            (F.failed files.old) (F.failed files.new) result }
        ensures same { F.tells → F.host files.new ≡ F.host files.old }
        ensures stated { location.entry.root ≢ CargoHome → files.new ≡ files.old }
        ensures head { IfOk result (λ index. index.head ≡ None) }
    {
        if location.url.is_sparse() {
            return Err(refused_url(alloc, location.url.as_str(), InvalidUrlError::SparseForGit));
        }
        let (path, url) = location.into_parts(alloc, files, ident)?;
        Ok(GitIndex {
            cache: IndexCache::at_path(path, url),
            head: None,
        })
    }
}
