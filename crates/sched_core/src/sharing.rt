//! The same state once more, without a copy.
ghost use Rattle.std.specs.Prelude.{◌≡◌, IfOk};
ghost use Rattle.sched_core.specs.Courses.{journal_in, setting_in, IsCore};

use crate::held::{Kept, Site};
use std::alloc::AllocError;
use std::sync::Arc;

/// The same site and what is kept there, by sharing alone.
pub(crate) fn shared(site: &Site, kept: &Kept) -> Result<(Site, Kept), AllocError>
    requires { IsCore site.now kept.now }
    ensures core { IfOk result (λ r. IsCore r.0 r.1) }
    ensures setting { IfOk result (λ r. setting_in r.0 r.1 ≡ setting_in site.now kept.now) }
    ensures journal { IfOk result (λ r. journal_in r.1 ≡ journal_in kept.now) }
{
    let graph = Arc::try_clone(&site.graph)?;
    let book = kept.book.share()?;
    let journal = kept.journal.snap()?;
    Ok((
        Site {
            alloc: site.alloc,
            graph,
            horizon: site.horizon,
            claim_limit: site.claim_limit,
        },
        Kept {
            journal,
            book,
            claim_count: kept.claim_count,
        },
    ))
}
