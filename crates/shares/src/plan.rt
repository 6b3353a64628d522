// What does not change from record to record.
ghost use Rattle.shares.specs.Ready.{PlanFor, one_plan};

use factors::numbers::Factors;
use factors::prepared::Prepared;
use inputs::Scenario;

// The scenario, the medium, the factors as numbers, and their products in both directions.
#[derive(Clone, Copy)]
pub struct Plan {
    pub scenario: Scenario,
    pub medium: u32,
    pub factors: Factors,
    pub up: Prepared,
    pub down: Prepared,
    pub ghost ready: { PlanFor scenario medium factors up down } by { one_plan scenario medium factors up down },
}
