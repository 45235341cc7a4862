// Does a commit go through, by what ask gives now.
ghost use Rattle.std.specs.Prelude.{◌≡◌};
ghost use Rattle.forecasts.specs.Forecast.{same_three, on_asked};

use forecasts::forecast::Forecast;
use table::answer::Refusal;

// Does a commit go through: the edit's own refusals come first, since ask gave them.
pub fn commit_verdict(forecast: Forecast, asked: Result<Forecast, Refusal>) -> Result<(), Refusal>
    ensures { result ≡ on_asked forecast asked }
{
    let now = asked?;
    if forecast != now {
        return Err(Refusal::StaleForecast);
    }
    Ok(())
}
