//! What a shared watch does that no script can say.
mod clones;
mod judges;
mod receivers;
mod sends;
mod story;
