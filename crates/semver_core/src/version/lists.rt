// What stands behind the three numbers of a version.

ghost use Rattle.std.specs.Prelude.{◌≡◌, ◌≤◌, ◌<◌, ◌∷◌, [], drop, IfErr, IfOk, IsOk, length};
ghost use Rattle.std.specs.Prelude.{OnErr, take};
ghost use Rattle.semver_core.specs.Internal.Inside.{AreLists, IsFull, build_of, pre_release_of};
ghost use Rattle.semver_core.specs.{Text.Identifiers.Numeric, Values.Views.ids_view};

use crate::{Allocated, Identifier, IdentifierRefs};
use std::alloc::Global;

// The pre-release and the build metadata of a version.
#[derive(Debug, Drop)]
pub(crate) enum Qualifier {
    // Neither.
    Absent,
    // One pre-release identifier and no build metadata, as in `-0`, which most bounds have.
    One(Identifier),
    // Any identifiers.
    Lists(Lists),
}

// The identifiers of a pre-release, and behind them those of build metadata.
#[derive(Debug)]
pub(crate) struct Lists {
    // How many of the identifiers the pre-release has.
    pub(crate) pre_len: usize,
    pub(crate) ids: Vec<Identifier>,
}

// Out of line, so that little code stands wherever a version is dropped.
impl Drop for Lists {
    #[inline(never)]
    fn drop(self) {
        let Lists { pre_len: _, ids: _ } = self;
    }
}

impl Lists {
    // A pre-release, and behind it copies of the identifiers of build metadata.
    pub(crate) fn with_build(
        alloc: Global,
        pre_release: Vec<Identifier>,
        build: &IdentifierRefs<'_>,
    ) -> Allocated<Lists>
        ensures { IfOk result (λ l. AreLists l (ids_view pre_release.items) build.now) }
    {
        let mut ids = pre_release;
        let pre_len = ids.len();
        build.copy_into(alloc, &mut ids)?;
        Ok(Lists { ids, pre_len })
    }

    // Copies of the identifiers of both.
    #[inline(never)]
    pub(crate) fn copied(
        alloc: Global,
        pre_release: &IdentifierRefs<'_>,
        build: &IdentifierRefs<'_>,
    ) -> Allocated<Lists>
        ensures { IfOk result (λ l. AreLists l pre_release.now build.now) }
    {
        let mut ids = Vec::new(alloc);
        pre_release.copy_into(alloc, &mut ids)?;
        Lists::with_build(alloc, ids, build)
    }

    // A copy. One identifier alone then stands in the version.
    #[inline(never)]
    pub(crate) fn copy(&self, alloc: Global) -> Allocated<Qualifier>
        requires { self.now.pre_len ≤ length self.now.ids.items }
        ensures pre_release { IfOk result (λ q.
            pre_release_of q ≡ take self.now.pre_len (ids_view self.now.ids.items)) }
        ensures build { IfOk result (λ q.
            build_of q ≡ drop self.now.pre_len (ids_view self.now.ids.items)) }
        ensures full { IfOk result (λ q. IsFull q) }
        ensures memory { OnErr result (0 < length self.now.ids.items) }
        ensures zero { take self.now.pre_len (ids_view self.now.ids.items) ≡ Numeric 0 ∷ []
            → drop self.now.pre_len (ids_view self.now.ids.items) ≡ [] → IsOk result }
    {
        if self.ids.len() == 1 && self.pre_len == 1 {
            return Ok(Qualifier::One(self.ids[0].copy(alloc)?));
        }
        let ids = Identifier::copy_list(alloc, &self.ids)?;
        Ok(Qualifier::Lists(Lists {
            ids,
            pre_len: self.pre_len,
        }))
    }

    // The pre-release and the build metadata. If allocation fails, the lists are returned.
    #[tactic(auto, using(crate::proofs::Values::Lists::split_views))]
    pub(crate) fn split(self) -> Result<(Vec<Identifier>, Vec<Identifier>), Lists>
        requires { self.pre_len ≤ length self.ids.items }
        ensures pre_release { IfOk result (λ p.
            ids_view p.0.items ≡ take self.pre_len (ids_view self.ids.items)) }
        ensures build { IfOk result (λ p.
            ids_view p.1.items ≡ drop self.pre_len (ids_view self.ids.items)) }
        ensures err { IfErr result (λ l. (l.ids ≡ self.ids) × (l.pre_len ≡ self.pre_len)) }
        ensures memory { OnErr result (0 < length self.ids.items) }
    {
        let Lists { mut ids, pre_len } = self;
        match ids.split_off(pre_len) {
            Ok(build) => Ok((ids, build)),
            Err(_) => Err(Lists { ids, pre_len }),
        }
    }
}
