//! Documents of all apps.

/// Of a registry without instances.
pub(crate) const NONE: &str =
    r#"{"applications":{"application":[],"apps__hashcode":"","versions__delta":"0"}}"#;

/// Of a registry with one instance, which is its delta from version 0 too.
pub(crate) const ONE: &str =
    r#"{"applications":{"application":[{"instance":[{"actionType":"ADDED","app":"ORDERS","countryId":1,"dataCenterInfo":{"@class":"com.netflix.appinfo.InstanceInfo$DefaultDataCenterInfo","name":"MyOwn"},"healthCheckUrl":"http://h1:8080/health","homePageUrl":"http://h1:8080/","hostName":"h1","instanceId":"h1:orders:8080","ipAddr":"10.0.0.1","isCoordinatingDiscoveryServer":"false","lastDirtyTimestamp":"950","lastUpdatedTimestamp":"1000","leaseInfo":{"durationInSecs":90,"evictionTimestamp":0,"lastRenewalTimestamp":1000,"registrationTimestamp":1000,"renewalIntervalInSecs":30,"serviceUpTimestamp":1000},"metadata":{"zone":"z1"},"overriddenStatus":"UNKNOWN","port":{"$":8080,"@enabled":"true"},"securePort":{"$":443,"@enabled":"false"},"secureVipAddress":"orders","status":"UP","statusPageUrl":"http://h1:8080/info","vipAddress":"orders"}],"name":"ORDERS"}],"apps__hashcode":"UP_1_","versions__delta":"1"}}"#;

/// The same with one space more.
pub(crate) const SPACED: &str =
    r#"{"applications": {"application":[{"instance":[{"actionType":"ADDED","app":"ORDERS","countryId":1,"dataCenterInfo":{"@class":"com.netflix.appinfo.InstanceInfo$DefaultDataCenterInfo","name":"MyOwn"},"healthCheckUrl":"http://h1:8080/health","homePageUrl":"http://h1:8080/","hostName":"h1","instanceId":"h1:orders:8080","ipAddr":"10.0.0.1","isCoordinatingDiscoveryServer":"false","lastDirtyTimestamp":"950","lastUpdatedTimestamp":"1000","leaseInfo":{"durationInSecs":90,"evictionTimestamp":0,"lastRenewalTimestamp":1000,"registrationTimestamp":1000,"renewalIntervalInSecs":30,"serviceUpTimestamp":1000},"metadata":{"zone":"z1"},"overriddenStatus":"UNKNOWN","port":{"$":8080,"@enabled":"true"},"securePort":{"$":443,"@enabled":"false"},"secureVipAddress":"orders","status":"UP","statusPageUrl":"http://h1:8080/info","vipAddress":"orders"}],"name":"ORDERS"}],"apps__hashcode":"UP_1_","versions__delta":"1"}}"#;

/// The same with its members in another order.
pub(crate) const TURNED: &str =
    r#"{"applications":{"versions__delta":"1","apps__hashcode":"UP_1_","application":[{"name":"ORDERS","instance":[{"vipAddress":"orders","statusPageUrl":"http://h1:8080/info","status":"UP","secureVipAddress":"orders","securePort":{"$":443,"@enabled":"false"},"port":{"$":8080,"@enabled":"true"},"overriddenStatus":"UNKNOWN","metadata":{"zone":"z1"},"leaseInfo":{"durationInSecs":90,"evictionTimestamp":0,"lastRenewalTimestamp":1000,"registrationTimestamp":1000,"renewalIntervalInSecs":30,"serviceUpTimestamp":1000},"lastUpdatedTimestamp":"1000","lastDirtyTimestamp":"950","isCoordinatingDiscoveryServer":"false","ipAddr":"10.0.0.1","instanceId":"h1:orders:8080","hostName":"h1","homePageUrl":"http://h1:8080/","healthCheckUrl":"http://h1:8080/health","dataCenterInfo":{"@class":"com.netflix.appinfo.InstanceInfo$DefaultDataCenterInfo","name":"MyOwn"},"countryId":1,"app":"ORDERS","actionType":"ADDED"}]}]}}"#;

/// A delta that takes the instance out, and has a hash code that the copy then hasn't.
pub(crate) const GONE: &str =
    r#"{"applications":{"application":[{"instance":[{"actionType":"DELETED","app":"ORDERS","hostName":"h1","instanceId":"h1:orders:8080","ipAddr":"10.0.0.1","status":"UP","vipAddress":"orders"}],"name":"ORDERS"}],"apps__hashcode":"UP_7_","versions__delta":"3"}}"#;
