//! Connected sets of regions: what they are, a test that computes, and the laws of their family. The
//! oracle over them is proved from these.
#![tactic(auto)]
