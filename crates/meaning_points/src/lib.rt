//! Sources with what they mean at points, compared with a second implementation and worked by hand.
#![tactic(auto)]
