// A forecast as one number: as C gets it from ask, and as it hands it to commit.
ghost use Rattle.std.specs.Prelude.{◌≡◌};
ghost use Rattle.forecasts.specs.Number.{asked_code, forecast_in};
ghost use Rattle.forecasts.proofs.laws.Number.{Numbered};

use edits::rule::RULE_PLACE;
use forecasts::forecast::Forecast;
use table::answer::{Refusal, refusal_code};

// The face count before stands above the rule's 16 bits.
const BEFORE_PLACE: u64 = 4294967296;

// Ask's answer as C gets it: after, the rule's number above its 16 bits, before above 32; or the refusal's code.
pub fn asked_code(asked: Result<Forecast, Refusal>) -> i64
    requires { Numbered asked }
    ensures { result ≡ asked_code asked }
{
    match asked {
        Ok(f) => (f.after as u64
            + RULE_PLACE * f.rule as u64
            + BEFORE_PLACE * f.before as u64) as i64,
        Err(r) => refusal_code(r),
    }
}

// The forecast that C hands over. No forecast is below 0.
pub fn forecast_in(forecast: i64) -> Forecast
    ensures { result ≡ forecast_in forecast }
{
    if forecast < 0 {
        return Forecast {
            before: 0,
            after: 0,
            rule: 0,
        };
    }
    let x = forecast as u64;
    Forecast {
        before: (x / BEFORE_PLACE) as u32,
        after: (x % RULE_PLACE) as u32,
        rule: (x / RULE_PLACE % RULE_PLACE) as u32,
    }
}
