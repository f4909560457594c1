// Plans of stages: their records, reading them from numbers, the named plans, and what to lend for them.
#![tactic(auto)]

// meaning: morph/specs/Refusals.antt `refusal_number`
pub use morph::Refusal;
// promise: plan_record/specs/Plan.antt `alternating_stages`
pub use plan_named::alternating;
// promise: plan_record/specs/Plan.antt `closing_stages`
pub use plan_named::closing;
// promise: plan_record/specs/Plan.antt `opening_stages`
pub use plan_named::opening;
// promise: plan_record/specs/Plan.antt `plan_read`
pub use plan_read::read;
// promise: plan_record/specs/Plan.antt `plan_given`
pub use plan_read::read_stages;
// meaning: plan_record/specs/Plan.antt `needs_of`
pub use plan_record::Need;
// meaning: plan_record/specs/Plan.antt `stages_of`
pub use plan_record::Plan;
// meaning: plan_record/specs/Plan.antt `reading_of`
pub use plan_record::Reading;
// meaning: plan_record/specs/Plan.antt `filter_of`
pub use plan_record::Stage;
// promise: plan_record/specs/Plan.antt `plan_of`
pub use plan_record::empty;
// promise: plan_record/specs/Plan.antt `record_number`
pub use plan_record::judge;
// promise: plan_record/specs/Plan.antt `needs_of`
pub use plan_record::needs;
