//! Worked examples: tags, records, lists of labels, and short days over the real monitor.
#![tactic(auto)]

#[cfg(test)]
mod days;
#[cfg(test)]
mod gathering_examples;
#[cfg(test)]
mod grade_days;
#[cfg(test)]
mod joint_days;
#[cfg(test)]
mod record_examples;
#[cfg(test)]
mod rival_days;
#[cfg(test)]
mod tag_examples;
