//! What the links of versions are for: what is skipped was passed over, and what is covered is decided. It is shown of
//! all settings that meet what is asked of single steps, before the chain is shown. The crate has no code.
#![tactic(auto)]
