// Tests of the whole call `flat` over memory: tables of jobs with their right answers.
#![tactic(auto)]

#[cfg(test)]
mod delaunay;
#[cfg(test)]
mod directions;
#[cfg(test)]
mod flows;
#[cfg(test)]
mod jobs;
#[cfg(test)]
mod running;
#[cfg(test)]
mod saddles;
#[cfg(test)]
mod segments;
#[cfg(test)]
mod staircases;
#[cfg(test)]
mod strata;
#[cfg(test)]
mod surfaces;
#[cfg(test)]
mod tables;
#[cfg(test)]
mod words;
