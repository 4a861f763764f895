// The marked examples of the rules, run on the real bench: over rows and masks, each
// with and without the signature layer, and at both cost kinds where they fit. The
// same eight are computed from the definitions in `rules`.

#![tactic(auto)]

#[cfg(test)]
mod cases;
#[cfg(test)]
mod tests;
#[cfg(test)]
mod trial;
