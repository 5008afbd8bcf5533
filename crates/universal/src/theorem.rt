//! Why the canonical model answers for every world, as the contract of a call that does nothing.
ghost use Rattle.universal.specs.Universal.{MarksFollow, UnravelledMaps, UnravelledFits, ClashFitsNone, NoneFitsIsClash, CertainIsKept};

/// Does nothing. Its contract is the theorem: in the unravelled model exactly the marks that follow are there; it
/// maps into every world that fits; without a clash it fits itself, and with one no world does. So, where clashes
/// can be told, no world fits exactly when there is one; and without one a row of names is certain exactly when it
/// has a kept match.
pub fn canonical_model_is_universal()
    ensures marks { MarksFollow }
    ensures maps { UnravelledMaps }
    ensures fits { UnravelledFits }
    ensures clashes { ClashFitsNone }
    ensures contradictions { NoneFitsIsClash }
    ensures answers { CertainIsKept }
{}
