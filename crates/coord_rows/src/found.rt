//! What acknowledgements found, as a report and an acknowledgement have it.

ghost use Rattle.std.specs.Prelude.{◌≡◌, IfOk};
ghost use Rattle.protocol.specs.Records.{in_order, mixed_of, unreported_of};
ghost use Rattle.protocol.specs.CoordinatorRows.{reports_of};
ghost use Rattle.coord_rows.specs.Findings.{mixed_ticket, unreported_ticket};

use protocol::{Finding, Findings, Reports, Sequence, Ticket};
use std::alloc::{AllocError, Global};

/// The ticket, if the finding reports it as mixed.
fn mixed(finding: &Finding) -> Option<Ticket>
    ensures { result ≡ mixed_ticket finding.now }
{
    match finding {
        Finding::Mixed(ticket) => Some(*ticket),
        Finding::Unreported(_) => None,
    }
}

/// The ticket, if the finding reports it as unreported.
fn unreported(finding: &Finding) -> Option<Ticket>
    ensures { result ≡ unreported_ticket finding.now }
{
    match finding {
        Finding::Unreported(ticket) => Some(*ticket),
        Finding::Mixed(_) => None,
    }
}

/// The tickets that these findings report as mixed.
#[tactic(auto, using(crate::proofs::Findings::mixed_are))]
fn mixed_of(alloc: Global, findings: &[Finding]) -> Result<Vec<Ticket>, AllocError>
    ensures { IfOk result (λ tickets. tickets.items ≡ mixed_of findings.now) }
{
    findings
        .iter()
        .filter_map(
            |finding: &Finding| -> Option<Ticket>
                ensures { result ≡ mixed_ticket finding.now }
            { mixed(finding) },
        )
        .collect(alloc)
}

/// The tickets that they report as unreported.
#[tactic(auto, using(crate::proofs::Findings::unreported_are))]
fn unreported_of(alloc: Global, findings: &[Finding]) -> Result<Vec<Ticket>, AllocError>
    ensures { IfOk result (λ tickets. tickets.items ≡ unreported_of findings.now) }
{
    findings
        .iter()
        .filter_map(
            |finding: &Finding| -> Option<Ticket>
                ensures { result ≡ unreported_ticket finding.now }
            { unreported(finding) },
        )
        .collect(alloc)
}

/// What the root's End reports of these findings.
pub(crate) fn reports_of(alloc: Global, findings: &[Finding]) -> Result<Reports, AllocError>
    ensures { IfOk result (λ reports. reports ≡ reports_of findings.now) }
{
    let mixed = mixed_of(alloc, findings)?;
    let unreported = unreported_of(alloc, findings)?;
    Ok(Reports {
        mixed: Sequence::from_vec(mixed),
        unreported: Sequence::from_vec(unreported),
    })
}

/// These findings in the order of an acknowledgement's text: the mixed tickets, and the unreported ones after
/// them.
pub(crate) fn in_order(alloc: Global, findings: &[Finding]) -> Result<Findings, AllocError>
    ensures { IfOk result (λ ordered. ordered ≡ in_order findings.now) }
{
    let mixed = mixed_of(alloc, findings)?;
    let unreported = unreported_of(alloc, findings)?;
    let mut ordered = Vec::new(alloc);
    for ticket in mixed.iter() {
        ordered.push(Finding::Mixed(*ticket))?;
    }
    for ticket in unreported.iter() {
        ordered.push(Finding::Unreported(*ticket))?;
    }
    Ok(Sequence::from_vec(ordered))
}
